// The parts of judging a month: its days, its handle, and the handle that comes after it.
ghost use Rattle.std.specs.Prelude.{◌≡◌, ◌<◌};
ghost use Rattle.whole.specs.Ranges.{Within};
ghost use Rattle.whole.specs.Tests.{is_exactly};
ghost use Rattle.months.specs.Handles.{handle_at};
ghost use Rattle.content.specs.Steps.{days_after, leap_handle, handle_after};

use dates::inner::has_date;
use month_rule::inner::month_of;
use times::Day;
use whole::inner::{add, in_range, subtract};

// Whether h is the handle at a place of a sui of this year whose leap month is at place `leap`.
fn is_handle(year: i64, leap: usize, place: usize, h: i64) -> bool
    requires within { Within 2500 year }
    requires place_bound { place < 14 }
    ensures { result ≡ is_exactly (handle_at year leap place) h }
{
    let month = month_of(year, leap, place, 0, 0);
    h == month.handle
}

// Whether h is a leap month's at a place where so many leap months came before.
pub fn leap_handle(year: i64, months: i64, leaps: usize, place: usize, h: i64) -> bool
    requires within { Within 2500 year }
    requires place_bound { place < 13 }
    ensures { result ≡ leap_handle year months leaps place h }
{
    if months != 13 {
        return false;
    }
    if 0 < leaps {
        return false;
    }
    if place < 1 {
        return false;
    }
    is_handle(year, place, place, h)
}

// The handle of the ordinary month after the one of handle h.
pub fn handle_after(year: i64, h: i64) -> i64
    requires within { Within 2500 year }
    requires within_2 { Within 1000000 h }
    ensures { result ≡ handle_after year h }
{
    if h == 32 * year + 24 {
        return subtract(h, 22);
    }
    add(h, 2)
}

// Whether a month that must begin on the day `due` has good days.
pub fn good_days(due: i64, first: i64, size: i64) -> bool
    requires { Within 1000000 due }
    ensures { result ≡ days_after due first size }
{
    if first != due {
        return false;
    }
    if !in_range(29, 30, size) {
        return false;
    }
    let behind = add(first, size);
    has_date(Day(subtract(behind, 1)))
}
