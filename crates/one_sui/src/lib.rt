// The months of a sui, from leap table, Sun and Moon (document 01, "Months of a sui"). Solstices, zhongqi and new moons are located by index, a few dozen marks
// a sui; what follows from their days is the month rule of `months`.
#![tactic(auto)]

ghost use Rattle.std.specs.Prelude.{◌≡◌};
ghost use Rattle.refusals.specs.Verdict.{paper};
ghost use Rattle.inputs.specs.Inputs.{inputs};
ghost use Rattle.sui.specs.Sui.{sui_for};

use months::Sui;
use refusals::Refusal;
use times::Second;

mod finding;
pub mod inner;

// The months of sui `year`, by the days of a zone.
pub fn sui(
    leap: &[i64],
    sunstart: Second,
    sun: &[i64],
    moonstart: Second,
    moon: &[i64],
    zone: i64,
    year: i64,
) -> Result<Sui, Refusal>
    ensures { paper result ≡ sui_for (inputs leap.now sunstart.0 sun.now moonstart.0 moon.now) zone year }
{
    inputs::judge_in(leap, sunstart, sun, moonstart, moon, zone)?;
    let days = inner::days_in(leap, sunstart, sun, moonstart, moon, zone, year)?;
    month_rule::inner::sui_of(year, days)
}
