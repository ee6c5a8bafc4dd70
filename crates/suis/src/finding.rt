// The parts of finding a sui's days in the days ahead of it: one solstice in each of two years, the new moons from month 11 on.
ghost use Rattle.std.specs.Prelude.{◌≡◌, ◌&&◌, ◌-◌, ◌<◌, pos, ◌+ℤ◌, length, get_or, ◌≤ℤ◌};
ghost use Rattle.refusals.specs.Verdict.{paper};
ghost use Rattle.whole.specs.Ranges.{Within};
ghost use Rattle.series.specs.declared.Body.TheVariants.{Moon};
ghost use Rattle.series.specs.Series.{series};
ghost use Rattle.inputs.specs.Inputs.{inputs};
ghost use Rattle.months.specs.Months.{days_of};
ghost use Rattle.turns.specs.Listed.{turn_days, turns_by, turns_of};
ghost use Rattle.turns.specs.Searched.{Searched};
ghost use Rattle.sui.specs.Sui.{sui_days};
ghost use Rattle.sui.specs.theory.Solstices.{eve};
ghost use Rattle.suis.specs.Ahead.{Ahead, YearAhead, one_more, crowded};

use month_rule::inner::days_of;
use months::SuiDays;
use one_sui::inner::eve;
use refusals::Refusal;
use series::Body;
use times::{Day, Second};
use turns::inner::{TurnList, turns_by};
use whole::inner::{add, in_range};

// Whether day j of the list is not after `day`, and no further one is.
fn one_more(days: &[i64], j: usize, day: i64) -> bool
    requires { j < 100 }
    ensures { result ≡ one_more days.now j day }
{
    if days.len() <= j {
        return false;
    }
    if day < days[j] {
        return false;
    }
    if days.len() <= j + 1 {
        return true;
    }
    day < days[j + 1]
}

// Whether the first of the days is the one of the year before, and the second the one of the year.
pub fn one_in_each(solstices: &[i64], year: i64) -> bool
    requires { Within 2500 year }
    ensures { result ≡ (one_more solstices.now 0 (eve year) && one_more solstices.now 1 (eve (year +ℤ pos 1))) }
{
    let last = eve(year);
    if !one_more(solstices, 0, last.0) {
        return false;
    }
    let next = eve(add(year, 1));
    one_more(solstices, 1, next.0)
}

// No days of a sui of more than thirteen months: 8 where no new moon lies behind the second solstice, else 9.
fn too_many(
    leap: &[i64],
    start: Second,
    coefs: &[i64],
    zone: i64,
    turns: TurnList,
    last: i64,
) -> Result<SuiDays, Refusal>
    requires { Searched leap.now (series Moon start.0 coefs.now) zone turns }
    ensures { paper result ≡ crowded (turns_of (series Moon start.0 coefs.now)) (turns_by leap.now (series Moon start.0 coefs.now) zone last) }
{
    let by = turns_by(leap, Body::Moon, start, coefs, zone, turns, Day(last));
    let listed = turns.count;
    if listed <= by {
        return Err(Refusal::NoSui);
    }
    Err(Refusal::MonthCount)
}

// The days of the sui with these zhongqi days, by the days of the new moons from month 11 on: 14 of them tell, and one more that no month is left over.
pub fn days_within(
    leap: &[i64],
    start: Second,
    coefs: &[i64],
    zone: i64,
    turns: TurnList,
    newmoons: &[i64],
    zhongqi: &[i64],
) -> Result<SuiDays, Refusal>
    requires searched { Searched leap.now (series Moon start.0 coefs.now) zone turns }
    requires zhongqi_len { length zhongqi.now ≡ 13 }
    requires pos_bound { (get_or zhongqi.now 0 (pos 0)) ≤ℤ (get_or zhongqi.now 12 (pos 0)) }
    requires nonzero { 0 < turns_by leap.now (series Moon start.0 coefs.now) zone (get_or zhongqi.now 0 (pos 0)) }
    requires ahead { Ahead leap.now (series Moon start.0 coefs.now) zone (turns_by leap.now (series Moon start.0 coefs.now) zone (get_or zhongqi.now 0 (pos 0)) - 1) 15 newmoons.now }
    ensures { paper result ≡ days_of (turn_days leap.now (series Moon start.0 coefs.now) zone) zhongqi.now }
{
    if newmoons.len() < 15 {
        return days_of(newmoons, zhongqi);
    }
    let last = zhongqi[12];
    if newmoons[14] <= last {
        return too_many(leap, start, coefs, zone, turns, last);
    }
    days_of(&newmoons[..15], zhongqi)
}

// The days of the sui of a year whose first solstice stands at a place, from the days of solstices, new moons and zhongqi ahead of it.
pub fn days_from(
    leap: &[i64],
    sunstart: Second,
    sun: &[i64],
    moonstart: Second,
    moon: &[i64],
    zone: i64,
    suns: TurnList,
    moons: TurnList,
    year: i64,
    place: usize,
    solstices: &[i64],
    newmoons: &[i64],
    zhongqi: &[i64],
) -> Result<SuiDays, Refusal>
    requires { YearAhead (inputs leap.now sunstart.0 sun.now moonstart.0 moon.now) zone suns moons year place solstices.now newmoons.now zhongqi.now }
    ensures { paper result ≡ sui_days (inputs leap.now sunstart.0 sun.now moonstart.0 moon.now) zone year }
{
    if !in_range(1700, 2500, year) {
        return Err(Refusal::NoSui);
    }
    if !one_in_each(solstices, year) {
        return Err(Refusal::NoSui);
    }
    days_within(leap, moonstart, moon, zone, moons, newmoons, zhongqi)
}
