// The clock read: from TDB seconds by a leap table to the milliseconds, days and shown times of a zone (document 01, "Three counts of time"; document 02, orders 2
// and 5). The zone is in minutes, -720 to 840. Definitions, examples and theorems are those of `clock`.
#![tactic(auto)]

ghost use Rattle.std.specs.Prelude.{◌≡◌};
ghost use Rattle.refusals.specs.Verdict.{paper};
ghost use Rattle.clock.specs.Clock.{day_of_milli};
ghost use Rattle.clock.specs.Answers.{leap_judged, milli_of, day_of_second, shown_of};

use clock::ShownTime;
use refusals::Refusal;
use times::{Day, Milli, Second};

pub mod inner;

// Whether a leap table keeps its rule.
pub fn judge_leap_table(leap: &[i64]) -> Result<(), Refusal>
    ensures { paper result ≡ leap_judged leap.now }
{
    if inner::leap_lawful(leap) {
        return Ok(());
    }
    Err(Refusal::LeapTable)
}

// The day of a millisecond.
pub fn day_of_milli(milli: Milli) -> Day
    ensures { result ≡ day_of_milli milli }
{
    let m = milli.0;
    Day(whole::inner::floor_div(m, 86400000))
}

// The zone's millisecond of a second.
pub fn milli_of(leap: &[i64], second: Second, zone: i64) -> Result<Milli, Refusal>
    ensures { paper result ≡ milli_of leap.now second zone }
{
    inner::judge(leap, second, zone)?;
    Ok(inner::milli_in(leap, second, zone))
}

// The zone's day of a second.
pub fn day_of_second(leap: &[i64], second: Second, zone: i64) -> Result<Day, Refusal>
    ensures { paper result ≡ day_of_second leap.now second zone }
{
    inner::judge(leap, second, zone)?;
    Ok(inner::day_in(leap, second, zone))
}

// The zone's time of a second, as it is shown.
pub fn shown(leap: &[i64], second: Second, zone: i64) -> Result<ShownTime, Refusal>
    ensures { paper result ≡ shown_of leap.now second zone }
{
    inner::judge(leap, second, zone)?;
    Ok(inner::shown_in(leap, second, zone))
}
