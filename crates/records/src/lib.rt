// The named form of a sui's months: a lent list of records.
#![tactic(auto)]

ghost use Rattle.std.specs.Prelude.{◌≡◌, length};
ghost use Rattle.refusals.specs.Verdict.{paper};
ghost use Rattle.refusals.specs.Lent.{written_into};
ghost use Rattle.inputs.specs.Inputs.{inputs};
ghost use Rattle.months.specs.Limits.{months_of};
ghost use Rattle.sui.specs.Sui.{sui_for};
ghost use Rattle.records.specs.Records.{records_of, records_into, all_records, records_counted};

use months::{Month, Sui};
use refusals::Refusal;
use times::Second;

// How many records a sui has: as many as it counts, and no more than it has places.
fn record_count(sui: Sui) -> usize
    ensures { result ≡ length (records_of sui) }
{
    let count = sui.count;
    if 13 < count {
        return 13;
    }
    count
}

// Stores the records of what was found, from the start of `out` on. Its refusal, or 12 where `out` has fewer places than there are records, stores nothing.
pub fn store(found: Result<Sui, Refusal>, out: &mut [Month]) -> Result<usize, Refusal>
    ensures result_value { paper result ≡ records_counted (records_into (paper found) (length out.old)) }
    ensures out_after { out.new ≡ written_into (records_into (paper found) (length out.old)) all_records out.old }
{
    let sui = found?;
    let count = record_count(sui);
    if out.len() < count {
        return Err(Refusal::Room);
    }
    let months = sui.months;
    out[..count].copy_from_slice(&months[..count]);
    Ok(count)
}

// The months of the sui that these new-moon days and zhongqi days hold, in a lent list.
pub fn months_into(
    year: i64,
    moons: &[i64],
    zhongqi: &[i64],
    out: &mut [Month],
) -> Result<usize, Refusal>
    ensures result_value { paper result ≡ records_counted (records_into (months_of year moons.now zhongqi.now) (length out.old)) }
    ensures out_after { out.new ≡ written_into (records_into (months_of year moons.now zhongqi.now) (length out.old)) all_records out.old }
{
    let found = month_rule::months_of(year, moons, zhongqi);
    store(found, out)
}

// The months of sui `year`, by the days of a zone, in a lent list.
pub fn sui_into(
    leap: &[i64],
    sunstart: Second,
    sun: &[i64],
    moonstart: Second,
    moon: &[i64],
    zone: i64,
    year: i64,
    out: &mut [Month],
) -> Result<usize, Refusal>
    ensures result_value { paper result ≡ records_counted (records_into (sui_for (inputs leap.now sunstart.0 sun.now moonstart.0 moon.now) zone year) (length out.old)) }
    ensures out_after { out.new ≡ written_into (records_into (sui_for (inputs leap.now sunstart.0 sun.now moonstart.0 moon.now) zone year) (length out.old)) all_records out.old }
{
    let found = one_sui::sui(leap, sunstart, sun, moonstart, moon, zone, year);
    store(found, out)
}
