// The suis of consecutive years, put again: where the days of a sui are the old ones its months come from the old file, else they are made. Its year is listed
// where they are copied.
ghost use Rattle.std.specs.Prelude.{◌≡◌, true, cond, [], ◌∷◌, ◌+◌, ◌*◌, ◌≤◌, ◌<◌, pos, length};
ghost use Rattle.whole.specs.Lists.{placed};
ghost use Rattle.whole.specs.Evaluated.{same_words};
ghost use Rattle.whole.specs.Ranges.{Within, All};
ghost use Rattle.refusals.specs.Verdict.{answered, paper};
ghost use Rattle.inputs.specs.Inputs.{inputs};
ghost use Rattle.months.specs.declared.SuiDays.{SuiDays};
ghost use Rattle.months.specs.Months.{IsSuiDays, sui_of};
ghost use Rattle.sui.specs.Sui.{sui_days};
ghost use Rattle.suis.specs.Ahead.{YearIn};
ghost use Rattle.rebuilt.specs.Rebuild.{days_words};
ghost use Rattle.kept_or_made.specs.Again.{again_count, again_months, put_answered, months_at_place, year_count, year_months, year_listed, year_again};

use super::days::days_words;
use alike::inner::same_words;
use build::inner::records::{put_months, put_sui};
use months::SuiDays;
use reader::inner::read_months;
use refusals::Refusal;
use suis::inner::days_after;
use times::Second;
use turns::inner::TurnList;

// How many months were put, and how many years are listed.
#[derive(Clone, Copy)]
pub struct Again {
    pub months: usize,
    pub years: usize,
}

// n months of a file, copied behind the words before them.
fn copy_months(file: &[u8], at: usize, n: usize, out: &mut [i64], to: usize)
    requires n_in_bounds { at + 9 * n ≤ length file.now }
    requires n_in_bounds_2 { to + 3 * n ≤ length out.old }
    ensures { out.new ≡ placed to (months_at_place file.now at n) out.old }
{
    read_months(file, at, n, &mut out[to..]);
}

// The records of a sui, the months from the old file or made.
fn put_again(
    same: bool,
    year: i64,
    days: SuiDays,
    old: &[u8],
    at: usize,
    j: usize,
    from: usize,
    suis: &mut [i64],
    months: &mut [i64],
) -> Result<usize, Refusal>
    requires within { Within 2500 year }
    requires sui_days { IsSuiDays days }
    requires all { All 1000000 days.moons }
    requires months_in_bounds { same ≡ true → at + 9 * days.months ≤ length old.now }
    requires j_bound { j < 128 }
    requires from_bound { from ≤ 1664 }
    requires j_in_bounds { 2 * j + 2 ≤ length suis.old }
    requires from_in_bounds { 3 * from + 39 ≤ length months.old }
    ensures result_value { paper result ≡ again_count same days.months (sui_of year days) }
    ensures suis_after { suis.new ≡ put_answered (again_count same days.months (sui_of year days)) (λ count. year ∷ pos count ∷ []) (2 * j) suis.old }
    ensures months_after { months.new ≡ put_answered (again_months same (months_at_place old.now at days.months) (sui_of year days)) (λ words. words) (3 * from) months.old }
{
    if same {
        let n = days.months;
        put_sui(suis, 2 * j, year, n);
        copy_months(old, at, n, months, 3 * from);
        return Ok(n);
    }
    let sui = month_rule::inner::sui_of(year, days)?;
    put_sui(suis, 2 * j, year, sui.count);
    put_months(sui, months, 3 * from);
    Ok(sui.count)
}

// Lists a year behind those before it, where its sui is kept; how many are listed then.
fn list_year(same: bool, year: i64, kept: &mut [i64], years: usize) -> usize
    requires { years < length kept.old }
    ensures value { result ≡ years + length (cond same (year ∷ []) []) }
    ensures kept_after { kept.new ≡ placed years (cond same (year ∷ []) []) kept.old }
{
    if same {
        kept[years] = year;
        return years + 1;
    }
    years
}

// The sui of a year, by the words of its old days: as record j of the suis; its months from month `from` on; its year where it is kept.
pub fn year_again(
    leap: &[i64],
    sunstart: Second,
    sun: &[i64],
    moonstart: Second,
    moon: &[i64],
    zone: i64,
    suns: TurnList,
    moons: TurnList,
    year: i64,
    place: usize,
    j: usize,
    from: usize,
    solstices: &[i64],
    newmoons: &[i64],
    zhongqi: &[i64],
    before: &[i64],
    old: &[u8],
    at: usize,
    years: usize,
    suis: &mut [i64],
    months: &mut [i64],
    kept: &mut [i64],
) -> Result<Again, Refusal>
    requires year_in { YearIn (inputs leap.now sunstart.0 sun.now moonstart.0 moon.now) zone suns moons year place j from solstices.now newmoons.now zhongqi.now }
    requires months_in_bounds { (days : SuiDays) → sui_days (inputs leap.now sunstart.0 sun.now moonstart.0 moon.now) zone year ≡ answered days → same_words before.now (days_words days) ≡ true → at + 9 * days.months ≤ length old.now }
    requires j_bound { j < 128 }
    requires from_bound { from ≤ 1664 }
    requires j_in_bounds { 2 * j + 2 ≤ length suis.old }
    requires from_in_bounds { 3 * from + 39 ≤ length months.old }
    requires years_in_bounds { years < length kept.old }
    ensures result_value { paper result ≡ year_again year (sui_days (inputs leap.now sunstart.0 sun.now moonstart.0 moon.now) zone year) before.now years }
    ensures suis_after { suis.new ≡ put_answered (year_count year (sui_days (inputs leap.now sunstart.0 sun.now moonstart.0 moon.now) zone year) before.now) (λ count. year ∷ pos count ∷ []) (2 * j) suis.old }
    ensures months_after { months.new ≡ put_answered (year_months year (sui_days (inputs leap.now sunstart.0 sun.now moonstart.0 moon.now) zone year) before.now old.now at) (λ words. words) (3 * from) months.old }
    ensures kept_after { kept.new ≡ put_answered (year_count year (sui_days (inputs leap.now sunstart.0 sun.now moonstart.0 moon.now) zone year) before.now) (λ count. year_listed year (sui_days (inputs leap.now sunstart.0 sun.now moonstart.0 moon.now) zone year) before.now) years kept.old }
{
    let days = days_after(
        leap, sunstart, sun, moonstart, moon, zone, suns, moons, year, place, j, from, solstices,
        newmoons, zhongqi,
    )?;
    let words = days_words(days);
    let same = same_words(before, &words);
    let n = put_again(same, year, days, old, at, j, from, suis, months)?;
    let listed = list_year(same, year, kept, years);
    Ok(Again {
        months: n,
        years: listed,
    })
}
