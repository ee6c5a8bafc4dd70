// The parts of finding the days of a sui: its solstices, zhongqi and new moons, each located by index.
ghost use Rattle.std.specs.Prelude.{◌≡◌, ◌++◌, ◌+◌, ◌-◌, ◌≤◌, ◌<◌, pos, ◌+ℤ◌, ◌-ℤ◌, replicate, ◌≤ℤ◌, ◌<ℤ◌};
ghost use Rattle.refusals.specs.Verdict.{paper};
ghost use Rattle.whole.specs.Ranges.{Within};
ghost use Rattle.whole.specs.Tabulated.{tabulate};
ghost use Rattle.series.specs.declared.Body.TheVariants.{Sun, Moon};
ghost use Rattle.series.specs.Series.{series};
ghost use Rattle.marks.specs.Listed.{first_reached, last_reached};
ghost use Rattle.inputs.specs.Known.{Ready};
ghost use Rattle.months.specs.Months.{days_of};
ghost use Rattle.turns.specs.Listed.{turn_day, turn_days, turns_by};
ghost use Rattle.sui.specs.theory.Solstices.{eve};
ghost use Rattle.sui.specs.theory.Found.{one_in_each, zhongqi_from};
ghost use Rattle.turns.specs.Searched.{Searched};

use super::inner::{eve, zhongqi_day};
use month_rule::inner::{month_count, moon_missing, twelve_or_thirteen};
use months::SuiDays;
use refusals::Refusal;
use series::Body;
use times::{Day, Second};
use turns::inner::{TurnList, day_of_turn, one_more, turns_by, turns_of};
use whole::inner::add;

// Whether one solstice lies in the year before and one in the year, where so many lie before both.
pub fn one_in_each(
    leap: &[i64],
    start: Second,
    coefs: &[i64],
    zone: i64,
    turns: TurnList,
    before: usize,
    year: i64,
) -> bool
    requires searched { Searched leap.now (series Sun start.0 coefs.now) zone turns }
    requires within { Within 2500 year }
    requires before_value { before ≡ turns_by leap.now (series Sun start.0 coefs.now) zone (eve (year -ℤ pos 1)) }
    ensures { result ≡ one_in_each leap.now (series Sun start.0 coefs.now) zone year }
{
    let last = eve(year);
    if !one_more(leap, Body::Sun, start, coefs, zone, turns, before, last) {
        return false;
    }
    let next = eve(add(year, 1));
    one_more(leap, Body::Sun, start, coefs, zone, turns, before + 1, next)
}

// The number of a day.
pub fn number_of(day: Day) -> i64
    ensures { result ≡ day.0 }
{
    day.0
}

// The days of the thirteen zhongqi from the solstice with this index on.
pub fn zhongqi_days(leap: &[i64], start: Second, coefs: &[i64], zone: i64, index: i64) -> [i64; 13]
    requires ready { Ready leap.now (series Sun start.0 coefs.now) }
    requires within { Within 1000 zone }
    requires coefs_bound { first_reached (series Sun start.0 coefs.now) <ℤ index }
    requires pos_bound { (index +ℤ pos 24) ≤ℤ last_reached (series Sun start.0 coefs.now) }
    ensures { result ≡ zhongqi_from leap.now (series Sun start.0 coefs.now) zone index }
{
    // Kept: fixed memory, no heap.
    let mut days: [i64; 13] = [0; 13];
    for (i, day) in days.iter_mut().enumerate() {
        *day = zhongqi_day(leap, start, coefs, zone, index, i);
    }
    days
}

// The days of so many new moons from a place on, then zeros.
fn moon_days(
    leap: &[i64],
    start: Second,
    coefs: &[i64],
    zone: i64,
    turns: TurnList,
    from: usize,
    n: usize,
) -> [i64; 14]
    requires searched { Searched leap.now (series Moon start.0 coefs.now) zone turns }
    requires n_bound { from + n ≤ turns.count }
    requires n_bound_2 { n ≤ 14 }
    ensures { result ≡ tabulate (λ k. turn_day leap.now (series Moon start.0 coefs.now) zone (from + k)) n ++ replicate (14 - n) (pos 0) }
{
    // Kept: fixed memory, no heap.
    let mut days: [i64; 14] = [0; 14];
    for (i, day) in days[..n].iter_mut().enumerate() {
        *day = number_of(day_of_turn(leap, Body::Moon, start, coefs, zone, turns, from + i));
    }
    days
}

// The days of the sui with these zhongqi days, by the Moon's new moons.
pub fn days_from(
    leap: &[i64],
    start: Second,
    coefs: &[i64],
    zone: i64,
    zhongqi: [i64; 13],
) -> Result<SuiDays, Refusal>
    requires ready { Ready leap.now (series Moon start.0 coefs.now) }
    requires within { Within 1000 zone }
    ensures { paper result ≡ days_of (turn_days leap.now (series Moon start.0 coefs.now) zone) zhongqi }
{
    let turns = turns_of(Body::Moon, start, coefs);
    let first = Day(zhongqi[0]);
    let by_first = turns_by(leap, Body::Moon, start, coefs, zone, turns, first);
    let second = Day(zhongqi[12]);
    let by_second = turns_by(leap, Body::Moon, start, coefs, zone, turns, second);
    if moon_missing(by_first, by_second, turns.count) {
        return Err(Refusal::NoSui);
    }
    let n = month_count(by_first, by_second);
    if !twelve_or_thirteen(n) {
        return Err(Refusal::MonthCount);
    }
    Ok(SuiDays {
        months: n,
        moons: moon_days(leap, start, coefs, zone, turns, by_first - 1, n + 1),
        zhongqi,
    })
}
