// For builds: the days of one sui of accepted inputs. The zone is in minutes.
ghost use Rattle.std.specs.Prelude.{◌≡◌, ◌*◌, ◌<◌, pos, ◌+ℤ◌, ◌≤ℤ◌, ◌<ℤ◌};
ghost use Rattle.refusals.specs.Verdict.{paper};
ghost use Rattle.whole.specs.Ranges.{Within};
ghost use Rattle.series.specs.declared.Body.TheVariants.{Sun};
ghost use Rattle.series.specs.Series.{series};
ghost use Rattle.marks.specs.Listed.{first_reached, last_reached};
ghost use Rattle.inputs.specs.Inputs.{inputs, day_of_mark};
ghost use Rattle.inputs.specs.Known.{Known, Ready};
ghost use Rattle.sui.specs.Sui.{sui_days};
ghost use Rattle.sui.specs.theory.Solstices.{eve};

use super::finding::{days_from, number_of, one_in_each, zhongqi_days};
use dates::Date;
use months::SuiDays;
use refusals::Refusal;
use series::Body;
use times::{Day, Second};
use turns::inner::{turn_index, turns_by, turns_of};
use whole::inner::{add, in_range, signed, subtract};

// The day before the first of January.
pub fn eve(year: i64) -> Day
    requires { Within 3000 year }
    ensures { result.0 ≡ eve year }
{
    let january = Date {
        year,
        month: 1,
        day: 1,
    };
    let first = dates::inner::day_number(january);
    Day(subtract(first.0, 1))
}

// The day of the i-th zhongqi from the solstice with this index on.
pub fn zhongqi_day(
    leap: &[i64],
    start: Second,
    coefs: &[i64],
    zone: i64,
    index: i64,
    i: usize,
) -> i64
    requires ready { Ready leap.now (series Sun start.0 coefs.now) }
    requires within { Within 1000 zone }
    requires coefs_bound { first_reached (series Sun start.0 coefs.now) <ℤ index }
    requires pos_bound { (index +ℤ pos 24) ≤ℤ last_reached (series Sun start.0 coefs.now) }
    requires i_bound { i < 13 }
    ensures { result ≡ (day_of_mark leap.now (series Sun start.0 coefs.now) zone (index +ℤ pos (2 * i))).0 }
{
    let mark = add(index, signed(2 * i));
    number_of(inputs::inner::day_of_mark(leap, Body::Sun, start, coefs, mark, zone))
}

// The days of a sui.
pub fn days_in(
    leap: &[i64],
    sunstart: Second,
    sun: &[i64],
    moonstart: Second,
    moon: &[i64],
    zone: i64,
    year: i64,
) -> Result<SuiDays, Refusal>
    requires known { Known (inputs leap.now sunstart.0 sun.now moonstart.0 moon.now) }
    requires within { Within 1000 zone }
    ensures { paper result ≡ sui_days (inputs leap.now sunstart.0 sun.now moonstart.0 moon.now) zone year }
{
    if !in_range(1700, 2500, year) {
        return Err(Refusal::NoSui);
    }
    let turns = turns_of(Body::Sun, sunstart, sun);
    let first = eve(subtract(year, 1));
    let before = turns_by(leap, Body::Sun, sunstart, sun, zone, turns, first);
    if !one_in_each(leap, sunstart, sun, zone, turns, before, year) {
        return Err(Refusal::NoSui);
    }
    let index = turn_index(Body::Sun, turns.first, before);
    let zhongqi = zhongqi_days(leap, sunstart, sun, zone, index);
    days_from(leap, moonstart, moon, zone, zhongqi)
}
