// What builds ask of accepted inputs, and of inputs that are being judged. The zone is in minutes.
ghost use Rattle.std.specs.Prelude.{◌≡◌, true, ◌&&◌, pos, ◌*ℤ◌, ◌≤ℤ◌, ◌<ℤ◌};
ghost use Rattle.std.specs.Int.Signed.{le_z};
ghost use Rattle.whole.specs.Floor.{floor_mod};
ghost use Rattle.whole.specs.Ranges.{Within};
ghost use Rattle.clock.specs.Leap.{leap_lawful};
ghost use Rattle.series.specs.Series.{series};
ghost use Rattle.series.specs.Acceptance.{Accepted};
ghost use Rattle.marks.specs.Listed.{listed_marks, first_reached, last_reached};
ghost use Rattle.inputs.specs.Inputs.{any_early, day_of_mark};
ghost use Rattle.inputs.specs.Known.{Ready};

use series::Body;
use times::{Day, Milli, Second};
use whole::inner::{floor_mod, subtract};

// Whether any listed mark lies before the first leap entry. Marks rise in time, so the first one tells.
pub fn any_early(leap: &[i64], body: Body, start: Second, coefs: &[i64]) -> bool
    requires leap_value { leap_lawful leap.now ≡ true }
    requires accepted { Accepted (series body start.0 coefs.now) }
    ensures { result ≡ any_early leap.now (listed_marks (series body start.0 coefs.now)) }
{
    if finder::inner::count(body, start, coefs) == 0 {
        return false;
    }
    let first = locator::inner::nth_mark(body, start, coefs, 0);
    let second = first.second;
    conversion::inner::early(leap, second)
}

// Whether so many seconds of a millisecond's day have passed.
fn have_passed(milli: Milli, seconds: i64) -> bool
    requires { pos 0 ≤ℤ seconds }
    ensures { result ≡ (le_z seconds (pos 86400) && le_z (pos 1000 *ℤ seconds) (pos (floor_mod milli.0 86400000))) }
{
    if 86400 < seconds {
        return false;
    }
    1000 * seconds <= floor_mod(milli.0, 86400000)
}

// The day of a listed mark, by its index. Two seconds that enclose the mark's tell it where they are of one day; elsewhere the mark is located.
pub fn day_of_mark(
    leap: &[i64],
    body: Body,
    start: Second,
    coefs: &[i64],
    index: i64,
    zone: i64,
) -> Day
    requires ready { Ready leap.now (series body start.0 coefs.now) }
    requires coefs_bound { first_reached (series body start.0 coefs.now) <ℤ index }
    requires index_bound { index ≤ℤ last_reached (series body start.0 coefs.now) }
    requires within { Within 1000 zone }
    ensures { result ≡ day_of_mark leap.now (series body start.0 coefs.now) zone index }
{
    let near = locator::inner::enclose(body, start, coefs, index);
    let count = conversion::inner::count_in(leap, Second(near.by), zone);
    if have_passed(count, subtract(near.by, near.after)) {
        return conversion::day_of_milli(count);
    }
    let second = locator::inner::locate(body, start, coefs, index);
    conversion::inner::day_in(leap, second, zone)
}
