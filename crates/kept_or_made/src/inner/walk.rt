// The suis of n years put again, one after another.
ghost use Rattle.std.specs.Prelude.{◌≡◌, List, ◌++◌, ◌+◌, ◌*◌, ◌≤◌, length, drop};
ghost use Rattle.inputs.specs.Inputs.{inputs};
ghost use Rattle.refusals.specs.Verdict.{answered, paper};
ghost use Rattle.months.specs.declared.Sui.{Sui};
ghost use Rattle.built.specs.Build.{suis_from, sui_words, month_words};
ghost use Rattle.build.specs.theory.Walk.{Walks};
ghost use Rattle.kept_or_made.specs.Again.{listed_again, years_again, Copies};

use super::years::{Again, year_again};
use refusals::Refusal;
use suis::inner::Places;
use times::Second;
use turns::inner::TurnList;
use whole::inner::{add, count, signed};

// `before` has the words of the old days, `old` the old file, whose months stand from `at` on.
pub fn put_years_again(
    leap: &[i64],
    sunstart: Second,
    sun: &[i64],
    moonstart: Second,
    moon: &[i64],
    zone: i64,
    suns: TurnList,
    moons: TurnList,
    places: Places,
    first: i64,
    n: usize,
    solstices: &[i64],
    newmoons: &[i64],
    zhongqi: &[i64],
    before: &[i64],
    old: &[u8],
    at: usize,
    suis: &mut [i64],
    months: &mut [i64],
    kept: &mut [i64],
) -> Result<Again, Refusal>
    requires walks { Walks (inputs leap.now sunstart.0 sun.now moonstart.0 moon.now) zone suns moons places first n solstices.now newmoons.now zhongqi.now }
    requires copies { Copies (inputs leap.now sunstart.0 sun.now moonstart.0 moon.now) zone first n before.now old.now at }
    requires n_in_bounds { 2 * n ≤ length suis.old }
    requires n_in_bounds_2 { 39 * n ≤ length months.old }
    requires n_in_bounds_3 { n ≤ length kept.old }
    ensures result_value { paper result ≡ years_again (inputs leap.now sunstart.0 sun.now moonstart.0 moon.now) zone first before.now n }
    ensures suis_after { (found : List Sui) → suis_from (inputs leap.now sunstart.0 sun.now moonstart.0 moon.now) zone first n ≡ answered found → suis.new ≡ sui_words first found ++ drop (length (sui_words first found)) suis.old }
    ensures months_after { (found : List Sui) → suis_from (inputs leap.now sunstart.0 sun.now moonstart.0 moon.now) zone first n ≡ answered found → months.new ≡ month_words found ++ drop (length (month_words found)) months.old }
    ensures kept_after { (found : List Sui) → suis_from (inputs leap.now sunstart.0 sun.now moonstart.0 moon.now) zone first n ≡ answered found → kept.new ≡ listed_again (inputs leap.now sunstart.0 sun.now moonstart.0 moon.now) zone first before.now n ++ drop (length (listed_again (inputs leap.now sunstart.0 sun.now moonstart.0 moon.now) zone first before.now n)) kept.old }
{
    let place = places.solstice;
    let mut from: usize = 0;
    let mut copied: usize = 0;
    let mut years: usize = 0;
    for j in 0..n {
        let year = add(first, signed(j));
        let put = year_again(
            leap,
            sunstart,
            sun,
            moonstart,
            moon,
            zone,
            suns,
            moons,
            year,
            place + j,
            j,
            from,
            solstices,
            newmoons,
            zhongqi,
            &before[28 * j..28 * j + 28],
            old,
            at + 9 * copied,
            years,
            suis,
            months,
            kept,
        )?;
        from += put.months;
        years = put.years;
        copied += count(before[28 * j]);
    }
    Ok(Again {
        months: from,
        years,
    })
}
