// The limits of the public entry.
ghost use Rattle.std.specs.Prelude.{◌≡◌};
ghost use Rattle.months.specs.Limits.{year_in_range, rising, day_in_range, in_range, days_kept, lists_kept};

// 1700 to 2500.
pub fn year_in_range(year: i64) -> bool
    ensures { result ≡ year_in_range year }
{
    (1700..=2500).contains(&year)
}

// Whether each day lies after the one before it.
pub fn rising(days: &[i64]) -> bool
    ensures { result ≡ rising days.now }
{
    days.is_sorted_by(|a, b| *a < *b)
}

// Within 200,000 of day 0.
pub fn day_in_range(day: i64) -> bool
    ensures { result ≡ day_in_range day }
{
    (-200000..=200000).contains(&day)
}

pub fn in_range(days: &[i64]) -> bool
    ensures { result ≡ in_range days.now }
{
    days.iter().all(|day| day_in_range(*day))
}

pub fn days_kept(days: &[i64]) -> bool
    ensures { result ≡ days_kept days.now }
{
    if !rising(days) {
        return false;
    }
    in_range(days)
}

// Whether the year and both lists keep the limits of the public entry.
pub fn lists_kept(year: i64, moons: &[i64], zhongqi: &[i64]) -> bool
    ensures { result ≡ lists_kept year moons.now zhongqi.now }
{
    if !year_in_range(year) {
        return false;
    }
    if 3000 < moons.len() {
        return false;
    }
    if !days_kept(moons) {
        return false;
    }
    if zhongqi.len() == 13 {
        return days_kept(zhongqi);
    }
    false
}
