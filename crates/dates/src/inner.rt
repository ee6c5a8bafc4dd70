// The parts of the two entry points. Those that ask something of their arguments are for callers that have judged them.
ghost use Rattle.std.specs.Prelude.{◌≡◌, true, ◌<◌, ◌≤◌, pos, nat_abs, ◌+ℤ◌, ◌-ℤ◌, ◌≤ℤ◌, ◌<ℤ◌, length, take};
ghost use Rattle.whole.specs.Ranges.{Within};
ghost use Rattle.dates.specs.Calendar.{divides, leap_year, leap_years_to, new_year, year_or_next, year_of, month_lengths, lengths_in, total, year_length, month_length, days_before, months_over, date_in_year, date_for, valid, day_number};
ghost use Rattle.dates.specs.Answers.{has_date};

use super::Date;
use times::Day;
use whole::inner::{count, distance, floor_div, floor_mod, in_range, signed};

// Whether a day lies in the range of days that have dates.
pub fn has_date(day: Day) -> bool
    ensures { result ≡ has_date day.0 }
{
    in_range(-150000, 200000, day.0)
}

// Whether m divides y.
fn divides(m: i64, y: i64) -> bool
    requires { pos 0 <ℤ m }
    ensures { result ≡ divides (nat_abs m) y }
{
    floor_mod(y, m) < 1
}

// Every fourth year, but of the full centuries only every fourth.
fn leap_year(y: i64) -> bool
    ensures { result ≡ leap_year y }
{
    if !divides(4, y) {
        return false;
    }
    if !divides(100, y) {
        return true;
    }
    divides(400, y)
}

fn leap_years_to(y: i64) -> i64
    requires { Within 2000000000 y }
    ensures { result ≡ leap_years_to y }
{
    floor_div(y, 4) - floor_div(y, 100) + floor_div(y, 400)
}

// The day of the first of January.
fn new_year(y: i64) -> Day
    requires { Within 1000000000 y }
    ensures { result.0 ≡ new_year y }
{
    Day(365 * (y - 2000) + leap_years_to(y - 1) - 484)
}

// The year of a day, or the one after it.
fn year_or_next(day: Day) -> i64
    requires { Within 200000 day.0 }
    ensures { result ≡ year_or_next day.0 }
{
    let n = day.0;
    2000 + floor_div(400 * n + 396, 146097)
}

// The year of a day.
fn year_of(day: Day) -> i64
    requires { Within 200000 day.0 }
    ensures { result ≡ year_of day.0 }
{
    let near = year_or_next(day);
    let first = new_year(near);
    if day.0 < first.0 {
        return near - 1;
    }
    near
}

fn month_lengths(leap: bool) -> [usize; 12]
    ensures { result ≡ month_lengths leap }
{
    let february: usize = if leap { 29 } else { 28 };
    [31, february, 31, 30, 31, 30, 31, 31, 30, 31, 30, 31]
}

// The lengths of the months of a year.
fn lengths_in(y: i64) -> [usize; 12]
    ensures { result ≡ lengths_in y }
{
    month_lengths(leap_year(y))
}

// How many months of these lengths are over when k days are.
fn months_over(lengths: &[usize], k: usize) -> usize
    ensures { result ≡ months_over lengths.now k }
{
    let mut left = k;
    for (over, &month) in lengths.iter().enumerate() {
        if left < month {
            return over;
        }
        left -= month;
    }
    lengths.len()
}

// The days of the first so many months.
fn days_of(lengths: &[usize], months: usize) -> usize
    requires months_in_bounds { months ≤ length lengths.now }
    requires lengths_bound { total lengths.now < 1000 }
    ensures { result ≡ total (take months lengths.now) }
{
    lengths[..months].iter().sum()
}

// The date when k days of a year are over.
fn date_in_year(y: i64, k: usize) -> Date
    requires { k < year_length y }
    ensures { result ≡ date_in_year y k }
{
    let lengths = lengths_in(y);
    let over = months_over(&lengths, k);
    let before = days_of(&lengths, over);
    Date {
        year: y,
        month: signed(over + 1),
        day: signed(k - before + 1),
    }
}

// The date of a day that has one.
pub fn date_for(day: Day) -> Date
    requires { has_date day.0 ≡ true }
    ensures { result ≡ date_for day.0 }
{
    let year = year_of(day);
    let first = new_year(year);
    date_in_year(year, distance(first.0, day.0))
}

// The length of month 1 to 12 of a year.
fn month_length(y: i64, m: i64) -> i64
    requires { (pos 1 ≤ℤ m) × (m ≤ℤ pos 12) }
    ensures { result ≡ pos (month_length y m) }
{
    let lengths = lengths_in(y);
    let i = count(m) - 1;
    signed(lengths[i])
}

// Whether there is such a date.
pub fn valid(date: Date) -> bool
    ensures { result ≡ valid date }
{
    let month = date.month;
    if !in_range(1, 12, month) {
        return false;
    }
    in_range(1, month_length(date.year, month), date.day)
}

// The days of a year before month 1 to 12.
fn days_before(y: i64, m: i64) -> i64
    requires { (pos 1 ≤ℤ m) × (m ≤ℤ pos 12) }
    ensures { result ≡ pos (days_before y m) }
{
    let lengths = lengths_in(y);
    let i = count(m) - 1;
    signed(days_of(&lengths, i))
}

// The day of a year whose first day and whose days before the month are given.
fn day_after(first: Day, before: i64, day: i64) -> Day
    requires within { Within 1000000000000 first.0 }
    requires within_2 { Within 400 before }
    requires within_3 { Within 400 day }
    ensures { result.0 ≡ first.0 +ℤ before +ℤ day -ℤ pos 1 }
{
    let start = first.0;
    Day(start + before + day - 1)
}

// The day of a valid date whose year is no larger than a thousand million.
pub fn day_number(date: Date) -> Day
    requires date_value { valid date ≡ true }
    requires within { Within 1000000000 date.year }
    ensures { result.0 ≡ day_number date }
{
    let first = new_year(date.year);
    day_after(first, days_before(date.year, date.month), date.day)
}
