// The suis of consecutive years, one after another: each is found, and its records are put behind those before it.
ghost use Rattle.std.specs.Prelude.{◌≡◌, List, ◌++◌, ◌+◌, ◌*◌, ◌≤◌, ◌<◌, length, drop};
ghost use Rattle.inputs.specs.Inputs.{inputs};
ghost use Rattle.refusals.specs.Verdict.{answered, paper};
ghost use Rattle.months.specs.declared.Sui.{Sui};
ghost use Rattle.sui.specs.Sui.{sui_of_year};
ghost use Rattle.suis.specs.Ahead.{YearIn};
ghost use Rattle.built.specs.Build.{suis_from, sui_words, month_words};
ghost use Rattle.build.specs.theory.Put.{months_of, year_words, sui_months, put_when, months_in};
ghost use Rattle.build.specs.theory.Walk.{Walks};

use super::inner::records::{put_months, put_sui};
use refusals::Refusal;
use suis::inner::{Places, sui_after};
use times::Second;
use turns::inner::TurnList;
use whole::inner::{add, signed};

// The sui of a year, as record j of the suis; its months from month `from` on.
fn put_year(
    leap: &[i64],
    sunstart: Second,
    sun: &[i64],
    moonstart: Second,
    moon: &[i64],
    zone: i64,
    suns: TurnList,
    moons: TurnList,
    year: i64,
    place: usize,
    j: usize,
    from: usize,
    solstices: &[i64],
    newmoons: &[i64],
    zhongqi: &[i64],
    suis: &mut [i64],
    months: &mut [i64],
) -> Result<usize, Refusal>
    requires year_in { YearIn (inputs leap.now sunstart.0 sun.now moonstart.0 moon.now) zone suns moons year place j from solstices.now newmoons.now zhongqi.now }
    requires j_bound { j < 128 }
    requires from_bound { from ≤ 1664 }
    requires j_in_bounds { 2 * j + 2 ≤ length suis.old }
    requires from_in_bounds { 3 * from + 39 ≤ length months.old }
    ensures result_value { paper result ≡ months_of (sui_of_year (inputs leap.now sunstart.0 sun.now moonstart.0 moon.now) zone year) }
    ensures suis_after { suis.new ≡ put_when (sui_of_year (inputs leap.now sunstart.0 sun.now moonstart.0 moon.now) zone year) (year_words year) (2 * j) suis.old }
    ensures months_after { months.new ≡ put_when (sui_of_year (inputs leap.now sunstart.0 sun.now moonstart.0 moon.now) zone year) sui_months (3 * from) months.old }
{
    let sui = sui_after(
        leap, sunstart, sun, moonstart, moon, zone, suns, moons, year, place, j, from, solstices,
        newmoons, zhongqi,
    )?;
    put_sui(suis, 2 * j, year, sui.count);
    put_months(sui, months, 3 * from);
    Ok(sui.count)
}

// The suis of n years.
pub fn put_years(
    leap: &[i64],
    sunstart: Second,
    sun: &[i64],
    moonstart: Second,
    moon: &[i64],
    zone: i64,
    suns: TurnList,
    moons: TurnList,
    places: Places,
    first: i64,
    n: usize,
    solstices: &[i64],
    newmoons: &[i64],
    zhongqi: &[i64],
    suis: &mut [i64],
    months: &mut [i64],
) -> Result<usize, Refusal>
    requires walks { Walks (inputs leap.now sunstart.0 sun.now moonstart.0 moon.now) zone suns moons places first n solstices.now newmoons.now zhongqi.now }
    requires n_in_bounds { 2 * n ≤ length suis.old }
    requires n_in_bounds_2 { 39 * n ≤ length months.old }
    ensures result_value { paper result ≡ months_in (suis_from (inputs leap.now sunstart.0 sun.now moonstart.0 moon.now) zone first n) }
    ensures suis_after { (found : List Sui) → suis_from (inputs leap.now sunstart.0 sun.now moonstart.0 moon.now) zone first n ≡ answered found → suis.new ≡ sui_words first found ++ drop (length (sui_words first found)) suis.old }
    ensures months_after { (found : List Sui) → suis_from (inputs leap.now sunstart.0 sun.now moonstart.0 moon.now) zone first n ≡ answered found → months.new ≡ month_words found ++ drop (length (month_words found)) months.old }
{
    let place = places.solstice;
    let mut from: usize = 0;
    for j in 0..n {
        let year = add(first, signed(j));
        let count = put_year(
            leap,
            sunstart,
            sun,
            moonstart,
            moon,
            zone,
            suns,
            moons,
            year,
            place + j,
            j,
            from,
            solstices,
            newmoons,
            zhongqi,
            suis,
            months,
        )?;
        from += count;
    }
    Ok(from)
}
