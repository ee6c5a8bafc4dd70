// Reading a section of a file into lent words. Callers show that the bytes are there, and the room.
ghost use Rattle.std.specs.Prelude.{◌≡◌, ◌++◌, ◌+◌, ◌*◌, ◌≤◌, length, drop};
ghost use Rattle.almanac.specs.Fields.{times, numbers_in};
ghost use Rattle.almanac.specs.Layout.{entry_fields, sui_fields, end_at, content_at};
ghost use Rattle.almanac.specs.theory.Checked.{short_for};

use crate::inner::read_months;
use almanac::Counts;
use words::inner::{byte_at, signed4_at, unsigned4_at};

// n leap entries: day and offset.
// Kept: widths and signs differ from record to record; a generic one would be handed a reading for each field, and be longer than the three.
pub fn read_entries(file: &[u8], at: usize, n: usize, out: &mut [i64])
    requires n_in_bounds { at + 8 * n ≤ length file.now }
    requires n_in_bounds_2 { 2 * n ≤ length out.old }
    ensures { out.new ≡ numbers_in (times n entry_fields) file.now at ++ drop (2 * n) out.old }
{
    for i in 0..n {
        let here = at + 8 * i;
        out[2 * i] = signed4_at(file, here);
        out[2 * i + 1] = unsigned4_at(file, here + 4);
    }
}

// n suis: year and number of months.
// Kept: widths and signs differ from record to record; a generic one would be handed a reading for each field, and be longer than the three.
pub fn read_suis(file: &[u8], at: usize, n: usize, out: &mut [i64])
    requires n_in_bounds { at + 5 * n ≤ length file.now }
    requires n_in_bounds_2 { 2 * n ≤ length out.old }
    ensures { out.new ≡ numbers_in (times n sui_fields) file.now at ++ drop (2 * n) out.old }
{
    for i in 0..n {
        let here = at + 5 * i;
        out[2 * i] = signed4_at(file, here);
        out[2 * i + 1] = byte_at(file, here + 4);
    }
}

// Whether a lent list is too short for its section.
pub fn too_short(n: Counts, leap: usize, suis: usize, months: usize) -> bool
    requires { (n.entries ≤ 64) × ((n.suis ≤ 128) × (n.months ≤ 1664)) }
    ensures { result ≡ short_for n leap suis months }
{
    if leap < 2 * n.entries {
        return true;
    }
    if suis < 2 * n.suis {
        return true;
    }
    months < 3 * n.months
}

// All three sections of a file of these counts.
pub fn read_all(file: &[u8], n: Counts, leap: &mut [i64], suis: &mut [i64], months: &mut [i64])
    requires months_in_bounds { end_at n.entries n.suis n.months ≤ length file.now }
    requires entries_in_bounds { 2 * n.entries ≤ length leap.old }
    requires suis_in_bounds { 2 * n.suis ≤ length suis.old }
    requires months_in_bounds_2 { 3 * n.months ≤ length months.old }
    ensures leap_after { leap.new ≡ (content_at file.now n).leap ++ drop (2 * n.entries) leap.old }
    ensures suis_after { suis.new ≡ (content_at file.now n).suis ++ drop (2 * n.suis) suis.old }
    ensures months_after { months.new ≡ (content_at file.now n).months ++ drop (3 * n.months) months.old }
{
    let second = 4 + 8 * n.entries;
    let third = second + 4 + 5 * n.suis;
    read_entries(file, 4, n.entries, leap);
    read_suis(file, second + 4, n.suis, suis);
    read_months(file, third + 4, n.months, months);
}
