// The month rule over days (document 01, "Months of a sui"). Definitions, examples and theorems are those of `months`.
#![tactic(auto)]

ghost use Rattle.std.specs.Prelude.{◌≡◌};
ghost use Rattle.months.specs.Limits.{months_of};
ghost use Rattle.refusals.specs.Verdict.{paper};

use months::Sui;
use refusals::Refusal;

mod finding;
pub mod inner;
mod limits;
mod numbering;

// The months of the sui that these new-moon days and zhongqi days hold. The year serves the handles only.
pub fn months_of(year: i64, moons: &[i64], zhongqi: &[i64]) -> Result<Sui, Refusal>
    ensures { paper result ≡ months_of year moons.now zhongqi.now }
{
    if !limits::lists_kept(year, moons, zhongqi) {
        return Err(Refusal::NoSui);
    }
    let days = inner::days_of(moons, zhongqi)?;
    inner::sui_of(year, days)
}
