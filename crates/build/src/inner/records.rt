// The records of a sui, put into lent words: year and number of months, and each month's handle, first day and length.
ghost use Rattle.std.specs.Prelude.{◌≡◌, [], ◌∷◌, ◌+◌, ◌*◌, ◌≤◌, pos, length};
ghost use Rattle.whole.specs.Lists.{placed};
ghost use Rattle.built.specs.Build.{words_of, months_in};

use months::{Month, Sui};
use whole::inner::signed;

// Year and number of months.
pub fn put_sui(out: &mut [i64], at: usize, year: i64, count: usize)
    requires at_in_bounds { at + 2 ≤ length out.old }
    requires count_bound { count ≤ 13 }
    ensures { out.new ≡ placed at (year ∷ pos count ∷ []) out.old }
{
    out[at] = year;
    out[at + 1] = signed(count);
}

// Handle, first day and length.
fn put_month(out: &mut [i64], at: usize, month: Month)
    requires { at + 3 ≤ length out.old }
    ensures { out.new ≡ placed at (month.handle ∷ month.first ∷ month.length ∷ []) out.old }
{
    let handle = month.handle;
    let first = month.first;
    let size = month.length;
    out[at] = handle;
    out[at + 1] = first;
    out[at + 2] = size;
}

// The months of a sui.
pub fn put_months(sui: Sui, out: &mut [i64], at: usize)
    requires count_bound { sui.count ≤ 13 }
    requires count_in_bounds { sui.count ≤ length sui.months }
    requires count_in_bounds_2 { at + 3 * sui.count ≤ length out.old }
    ensures { out.new ≡ placed at (words_of (months_in sui)) out.old }
{
    for (i, month) in sui.months[..sui.count].iter().enumerate() {
        put_month(out, at + 3 * i, *month);
    }
}
