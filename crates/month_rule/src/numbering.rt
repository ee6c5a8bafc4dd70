// The parts of numbering the months of a sui: numbers and handles, zhongqi, lengths.
ghost use Rattle.std.specs.Prelude.{◌≡◌, not, ◌+◌, ◌<◌, ◌≤◌};
ghost use Rattle.whole.specs.Ranges.{Within, All};
ghost use Rattle.months.specs.Handles.{ordinal, number_at, leap_mark, handle, month_of};
ghost use Rattle.months.specs.Months.{IsSuiDays, zhongqi_in, without, first_without, leap_month, good_length, bad_month, first_bad_month, month_first, numbered};

use super::inner::month_of;
use months::{Month, Sui, SuiDays};
use whole::inner::{add, multiply, signed, subtract};

// The number of a place where no leap month came before.
pub fn ordinal(place: usize) -> usize
    requires { place < 100 }
    ensures { result ≡ ordinal place }
{
    (place + 10) % 12 + 1
}

// The number of a place, with the leap month at place `leap`.
pub fn number_at(leap: usize, place: usize) -> usize
    requires { place < 14 }
    ensures { result ≡ number_at leap place }
{
    if place < leap {
        return ordinal(place);
    }
    ordinal(place + 11)
}

// 1 at the leap month.
pub fn leap_mark(leap: usize, place: usize) -> usize
    ensures { result ≡ leap_mark leap place }
{
    if place == leap {
        return 1;
    }
    0
}

// The handle of a month.
pub fn handle(year: i64, number: usize, mark: usize) -> i64
    requires within { Within 2500 year }
    requires number_bound { number < 100 }
    requires mark_bound { mark < 100 }
    ensures { result ≡ handle year number mark }
{
    add(multiply(32, year), signed(2 * number + mark))
}

// How many of the zhongqi belong to the month from `first` to the day before `next`.
pub fn zhongqi_in(first: i64, next: i64, zhongqi: [i64; 13]) -> usize
    ensures { result ≡ zhongqi_in first next zhongqi }
{
    // Kept: a sum of tests, which takes half the instructions of `filter(..).count()`.
    let mut n: usize = 0;
    for &day in &zhongqi {
        n += usize::from((first..next).contains(&day));
    }
    n
}

// Whether the month at a place has no zhongqi.
pub fn without(days: SuiDays, place: usize) -> bool
    requires { place < 13 }
    ensures { result ≡ without days place }
{
    let first = days.moons[place];
    let next = days.moons[place + 1];
    zhongqi_in(first, next, days.zhongqi) == 0
}

// The place of the first month without a zhongqi, of thirteen: one has none (`thirteen_months_one_without`), so one is found.
pub fn first_without(days: SuiDays) -> usize
    requires sui_days { IsSuiDays days }
    requires months_value { days.months ≡ 13 }
    ensures { result ≡ first_without days }
{
    (0..13).find(|place| without(days, *place)).unwrap()
}

// The place of the leap month; the number of months where there is none.
// Kept: a number where there is none, since the definition and the theorem `leap_month_stands` say that number.
pub fn leap_month(days: SuiDays) -> usize
    requires { IsSuiDays days }
    ensures { result ≡ leap_month days }
{
    let months = days.months;
    if months == 13 {
        return first_without(days);
    }
    months
}

// Whether a number of days is not 29 or 30.
pub fn bad_length(n: i64) -> bool
    ensures { result ≡ not (good_length n) }
{
    !(29..=30).contains(&n)
}

// Whether the month at a place is not 29 or 30 days long.
pub fn bad_month(days: SuiDays, place: usize) -> bool
    requires place_bound { place < 13 }
    requires all { All 1000000 days.moons }
    ensures { result ≡ bad_month days place }
{
    let first = days.moons[place];
    let next = days.moons[place + 1];
    bad_length(subtract(next, first))
}

// The place of the first month that is not 29 or 30 days long; the number of months where there is none.
// Kept: a number where there is none, since the definition says that number.
pub fn first_bad_month(days: SuiDays) -> usize
    requires months_bound { days.months ≤ 13 }
    requires all { All 1000000 days.moons }
    ensures { result ≡ first_bad_month days }
{
    let months = days.months;
    (0..months)
        .find(|place| bad_month(days, *place))
        .unwrap_or(months)
}

// The month at a place.
pub fn month_at(year: i64, days: SuiDays, leap: usize, place: usize) -> Month
    requires within { Within 2500 year }
    requires place_bound { place < 13 }
    requires all { All 1000000 days.moons }
    ensures { result ≡ month_of year leap place (month_first days place) (month_first days (place + 1)) }
{
    let first = days.moons[place];
    let next = days.moons[place + 1];
    month_of(year, leap, place, first, next)
}

// The months, numbered and with their handles.
pub fn numbered(year: i64, days: SuiDays, leap: usize) -> Sui
    requires within { Within 2500 year }
    requires months_bound { days.months ≤ 13 }
    requires all { All 1000000 days.moons }
    requires leap_value { leap ≡ leap_month days }
    ensures { result ≡ numbered year days }
{
    let none = Month {
        handle: 0,
        first: 0,
        length: 0,
    };
    let count = days.months;
    // Kept: fixed memory, no heap.
    let mut months = [none; 13];
    for (place, month) in months[..count].iter_mut().enumerate() {
        *month = month_at(year, days, leap, place);
    }
    Sui { count, months }
}
