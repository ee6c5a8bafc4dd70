// For rebuilds: months of a file. Callers show that the bytes are there, and the room.
ghost use Rattle.std.specs.Prelude.{◌≡◌, ◌++◌, ◌+◌, ◌*◌, ◌≤◌, length, drop};
ghost use Rattle.almanac.specs.Fields.{times, numbers_in};
ghost use Rattle.almanac.specs.Layout.{month_fields};

use words::inner::{byte_at, signed4_at, unsigned4_at};

// Reads n months that stand from a place of a file on: handle, first day and length.
pub fn read_months(file: &[u8], at: usize, n: usize, out: &mut [i64])
    requires n_in_bounds { at + 9 * n ≤ length file.now }
    requires n_in_bounds_2 { 3 * n ≤ length out.old }
    ensures { out.new ≡ numbers_in (times n month_fields) file.now at ++ drop (3 * n) out.old }
{
    for i in 0..n {
        let here = at + 9 * i;
        out[3 * i] = unsigned4_at(file, here);
        out[3 * i + 1] = signed4_at(file, here + 4);
        out[3 * i + 2] = byte_at(file, here + 8);
    }
}
