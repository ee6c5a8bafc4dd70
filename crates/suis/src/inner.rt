// For builds of many suis: where the first one begins, the days ahead of it, and the sui of each year. The zone is in minutes.
ghost use Rattle.std.specs.Prelude.{◌≡◌, ◌++◌, ◌+◌, ◌*◌, ◌≤◌, ◌<◌, length, drop};
ghost use Rattle.refusals.specs.Verdict.{paper};
ghost use Rattle.whole.specs.Lists.{placed};
ghost use Rattle.whole.specs.Tabulated.{tabulate};
ghost use Rattle.series.specs.declared.Body.TheVariants.{Sun, Moon};
ghost use Rattle.series.specs.Series.{series};
ghost use Rattle.inputs.specs.Inputs.{inputs};
ghost use Rattle.turns.specs.Listed.{turn_day};
ghost use Rattle.turns.specs.Searched.{Searched};
ghost use Rattle.sui.specs.Sui.{sui_days, sui_of_year};
ghost use Rattle.suis.specs.Ahead.{Ahead, YearIn, zhongqi_of, begun, fewer};

use super::finding::days_from;
use months::{Sui, SuiDays};
use one_sui::inner::eve;
use refusals::Refusal;
use series::Body;
use times::Second;
use turns::inner::{TurnList, day_of_turn, turn_index, turns_by};
use whole::inner::{in_range, subtract};
use zhongqi::{put_thirteen, zhongqi_days};

pub mod zhongqi;

// The place of the first solstice of a sui among the Sun's, and of month 11's new moon among the Moon's.
#[derive(Clone, Copy)]
pub struct Places {
    pub solstice: usize,
    pub newmoon: usize,
}

// Where the sui of a year begins; 8 where it cannot.
pub fn begin(
    leap: &[i64],
    sunstart: Second,
    sun: &[i64],
    moonstart: Second,
    moon: &[i64],
    zone: i64,
    suns: TurnList,
    moons: TurnList,
    year: i64,
) -> Result<Places, Refusal>
    requires searched { Searched leap.now (series Sun sunstart.0 sun.now) zone suns }
    requires searched_2 { Searched leap.now (series Moon moonstart.0 moon.now) zone moons }
    ensures { paper result ≡ begun leap.now (series Sun sunstart.0 sun.now) (series Moon moonstart.0 moon.now) zone year }
{
    if !in_range(1700, 2500, year) {
        return Err(Refusal::NoSui);
    }
    let before = eve(subtract(year, 1));
    let solstice = turns_by(leap, Body::Sun, sunstart, sun, zone, suns, before);
    let listed = suns.count;
    if listed <= solstice {
        return Err(Refusal::NoSui);
    }
    let day = day_of_turn(leap, Body::Sun, sunstart, sun, zone, suns, solstice);
    let by = turns_by(leap, Body::Moon, moonstart, moon, zone, moons, day);
    if by == 0 {
        return Err(Refusal::NoSui);
    }
    Ok(Places {
        solstice,
        newmoon: by - 1,
    })
}

// So many places, or as many as are left from a place on.
pub fn fewer(listed: usize, from: usize, most: usize) -> usize
    requires { from ≤ listed }
    ensures { result ≡ fewer listed from most }
{
    let left = listed - from;
    if left < most {
        return left;
    }
    most
}

// The days of n turns from a place on.
pub fn days_ahead(
    leap: &[i64],
    body: Body,
    start: Second,
    coefs: &[i64],
    zone: i64,
    turns: TurnList,
    from: usize,
    n: usize,
    out: &mut [i64],
)
    requires searched { Searched leap.now (series body start.0 coefs.now) zone turns }
    requires n_bound { from + n ≤ turns.count }
    requires n_in_bounds { n ≤ length out.old }
    ensures { out.new ≡ tabulate (λ k. turn_day leap.now (series body start.0 coefs.now) zone (from + k)) n ++ drop n out.old }
{
    for (i, day) in out[..n].iter_mut().enumerate() {
        *day = day_of_turn(leap, body, start, coefs, zone, turns, from + i).0;
    }
}

// The zhongqi days of m suis from the solstice at a place on, thirteen each. The solstices' own days are known.
pub fn zhongqi_ahead(
    leap: &[i64],
    start: Second,
    coefs: &[i64],
    zone: i64,
    suns: TurnList,
    place: usize,
    m: usize,
    solstices: &[i64],
    out: &mut [i64],
)
    requires searched { Searched leap.now (series Sun start.0 coefs.now) zone suns }
    requires ahead { Ahead leap.now (series Sun start.0 coefs.now) zone place 0 solstices.now }
    requires m_in_bounds { m < length solstices.now }
    requires m_in_bounds_2 { 13 * m ≤ length out.old }
    ensures { out.new ≡ placed 0 (zhongqi_of leap.now (series Sun start.0 coefs.now) zone place m) out.old }
{
    for j in 0..m {
        let index = turn_index(Body::Sun, suns.first, place + j);
        let first = solstices[j];
        let last = solstices[j + 1];
        let days = zhongqi_days(leap, start, coefs, zone, index, first, last);
        put_thirteen(out, 13 * j, days);
    }
}

// The days of the sui of a year whose first solstice stands at a place, from the days ahead that a walk over the years holds: of the solstices those from place j on,
// of the new moons those from place `from` on, and the zhongqi of sui j.
pub fn days_after(
    leap: &[i64],
    sunstart: Second,
    sun: &[i64],
    moonstart: Second,
    moon: &[i64],
    zone: i64,
    suns: TurnList,
    moons: TurnList,
    year: i64,
    place: usize,
    j: usize,
    from: usize,
    solstices: &[i64],
    newmoons: &[i64],
    zhongqi: &[i64],
) -> Result<SuiDays, Refusal>
    requires { YearIn (inputs leap.now sunstart.0 sun.now moonstart.0 moon.now) zone suns moons year place j from solstices.now newmoons.now zhongqi.now }
    ensures { paper result ≡ sui_days (inputs leap.now sunstart.0 sun.now moonstart.0 moon.now) zone year }
{
    days_from(
        leap,
        sunstart,
        sun,
        moonstart,
        moon,
        zone,
        suns,
        moons,
        year,
        place,
        &solstices[j..],
        &newmoons[from..],
        &zhongqi[13 * j..13 * j + 13],
    )
}

// The sui of that year.
pub fn sui_after(
    leap: &[i64],
    sunstart: Second,
    sun: &[i64],
    moonstart: Second,
    moon: &[i64],
    zone: i64,
    suns: TurnList,
    moons: TurnList,
    year: i64,
    place: usize,
    j: usize,
    from: usize,
    solstices: &[i64],
    newmoons: &[i64],
    zhongqi: &[i64],
) -> Result<Sui, Refusal>
    requires { YearIn (inputs leap.now sunstart.0 sun.now moonstart.0 moon.now) zone suns moons year place j from solstices.now newmoons.now zhongqi.now }
    ensures { paper result ≡ sui_of_year (inputs leap.now sunstart.0 sun.now moonstart.0 moon.now) zone year }
{
    let days = days_after(
        leap, sunstart, sun, moonstart, moon, zone, suns, moons, year, place, j, from, solstices,
        newmoons, zhongqi,
    )?;
    month_rule::inner::sui_of(year, days)
}
