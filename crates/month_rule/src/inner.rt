// For crates that find the days of a sui elsewhere, or look for them in lists of their own.
ghost use Rattle.std.specs.Prelude.{◌≡◌, ◌-◌, ◌<◌, length};
ghost use Rattle.refusals.specs.Verdict.{paper};
ghost use Rattle.whole.specs.Ranges.{Within, All};
ghost use Rattle.months.specs.Handles.{month_of};
ghost use Rattle.months.specs.Months.{not_after, is_missing, twelve_or_thirteen, days_of, IsSuiDays, sui_of};

use super::finding::{fourteen, thirteen};
use super::numbering::{first_bad_month, handle, leap_mark, leap_month, number_at, numbered};
use months::{Month, Sui, SuiDays};
use refusals::Refusal;
use whole::inner::subtract;

// How many of the days are not after `day`.
pub fn not_after(days: &[i64], day: i64) -> usize
    ensures { result ≡ not_after day days.now }
{
    // Kept: a sum of tests, which takes 3 instructions a day where `filter(..).count()` takes 7.
    let mut n: usize = 0;
    for d in days {
        n += usize::from(*d <= day);
    }
    n
}

// The days of the sui that these new-moon days and 13 zhongqi days hold.
pub fn days_of(moons: &[i64], zhongqi: &[i64]) -> Result<SuiDays, Refusal>
    requires { length zhongqi.now ≡ 13 }
    ensures { paper result ≡ days_of moons.now zhongqi.now }
{
    let by_first = not_after(moons, zhongqi[0]);
    let by_second = not_after(moons, zhongqi[12]);
    if moon_missing(by_first, by_second, moons.len()) {
        return Err(Refusal::NoSui);
    }
    let n = month_count(by_first, by_second);
    if !twelve_or_thirteen(n) {
        return Err(Refusal::MonthCount);
    }
    Ok(SuiDays {
        months: n,
        moons: fourteen(moons, by_first - 1, n + 1),
        zhongqi: thirteen(zhongqi),
    })
}

// The month at a place, from its first day to the day before the next month's. Every month record is made here.
pub fn month_of(year: i64, leap: usize, place: usize, first: i64, next: i64) -> Month
    requires within { Within 2500 year }
    requires place_bound { place < 14 }
    requires within_2 { Within 1000000 first }
    requires within_3 { Within 1000000 next }
    ensures { result ≡ month_of year leap place first next }
{
    Month {
        handle: handle(year, number_at(leap, place), leap_mark(leap, place)),
        first,
        length: subtract(next, first),
    }
}

// The sui of these days.
pub fn sui_of(year: i64, days: SuiDays) -> Result<Sui, Refusal>
    requires within { Within 2500 year }
    requires sui_days { IsSuiDays days }
    requires all { All 1000000 days.moons }
    ensures { paper result ≡ sui_of year days }
{
    let months = days.months;
    if first_bad_month(days) < months {
        return Err(Refusal::MonthLength);
    }
    Ok(numbered(year, days, leap_month(days)))
}

// How many more new moons are not after the second solstice than not after the first.
pub fn month_count(first: usize, second: usize) -> usize
    ensures { result ≡ second - first }
{
    if second < first {
        return 0;
    }
    second - first
}

// Whether month 11 has no new moon to begin on, or none lies behind the second solstice.
pub fn moon_missing(first: usize, second: usize, listed: usize) -> bool
    ensures { result ≡ is_missing first second listed }
{
    if first == 0 {
        return true;
    }
    listed <= second
}

// 12 or 13.
pub fn twelve_or_thirteen(n: usize) -> bool
    ensures { result ≡ twelve_or_thirteen n }
{
    if n == 12 {
        return true;
    }
    n == 13
}
