// Writing a section of a file from the words of its list. Callers show that the numbers fit their fields, and the room.
ghost use Rattle.std.specs.Prelude.{◌≡◌, [], ◌∷◌, ◌++◌, ◌+◌, ◌*◌, ◌/◌, ◌≤◌, ◌<◌, pos, length, drop};
ghost use Rattle.whole.specs.Lists.{placed};
ghost use Rattle.words.specs.Words.{bytes4};
ghost use Rattle.content.specs.Content.{content};
ghost use Rattle.almanac.specs.Fields.{one_byte, unsigned, signed, times, bytes_for};
ghost use Rattle.almanac.specs.Layout.{entry_fields, sui_fields, month_fields, end_at, bytes_of};
ghost use Rattle.almanac.specs.theory.FieldLaws.{FitsField, Fit};
ghost use Rattle.almanac.specs.theory.Whole.{FitsLayout};

use whole::inner::signed;
use words::inner::{put_byte, put4};

// A leap entry: day and offset.
fn put_entry(out: &mut [u8], at: usize, day: i64, offset: i64)
    requires at_in_bounds { at + 8 ≤ length out.old }
    requires fits_field { FitsField signed day }
    requires fits_field_2 { FitsField unsigned offset }
    ensures { out.new ≡ placed at (bytes_for entry_fields (day ∷ offset ∷ [])) out.old }
{
    put4(out, at, day);
    put4(out, at + 4, offset);
}

// A sui: year and number of months.
fn put_sui(out: &mut [u8], at: usize, year: i64, months: i64)
    requires at_in_bounds { at + 5 ≤ length out.old }
    requires fits_field { FitsField signed year }
    requires fits_field_2 { FitsField one_byte months }
    ensures { out.new ≡ placed at (bytes_for sui_fields (year ∷ months ∷ [])) out.old }
{
    put4(out, at, year);
    put_byte(out, at + 4, months);
}

// A month: handle, first day and length.
fn put_month(out: &mut [u8], at: usize, handle: i64, first: i64, size: i64)
    requires at_in_bounds { at + 9 ≤ length out.old }
    requires fits_field { FitsField unsigned handle }
    requires fits_field_2 { FitsField signed first }
    requires fits_field_3 { FitsField one_byte size }
    ensures { out.new ≡ placed at (bytes_for month_fields (handle ∷ first ∷ size ∷ [])) out.old }
{
    put4(out, at, handle);
    put4(out, at + 4, first);
    put_byte(out, at + 8, size);
}

// n leap entries.
// Kept: widths and signs differ from record to record; a generic one would be handed a writing for each field, and be longer than the three.
fn put_entries(leap: &[i64], n: usize, out: &mut [u8], at: usize)
    requires fit { Fit (times n entry_fields) leap.now }
    requires n_in_bounds { at + 8 * n ≤ length out.old }
    ensures { out.new ≡ placed at (bytes_for (times n entry_fields) leap.now) out.old }
{
    for i in 0..n {
        put_entry(out, at + 8 * i, leap[2 * i], leap[2 * i + 1]);
    }
}

// n suis.
// Kept: widths and signs differ from record to record; a generic one would be handed a writing for each field, and be longer than the three.
fn put_suis(suis: &[i64], n: usize, out: &mut [u8], at: usize)
    requires fit { Fit (times n sui_fields) suis.now }
    requires n_in_bounds { at + 5 * n ≤ length out.old }
    ensures { out.new ≡ placed at (bytes_for (times n sui_fields) suis.now) out.old }
{
    for i in 0..n {
        put_sui(out, at + 5 * i, suis[2 * i], suis[2 * i + 1]);
    }
}

// n months.
fn put_months(months: &[i64], n: usize, out: &mut [u8], at: usize)
    requires fit { Fit (times n month_fields) months.now }
    requires n_in_bounds { at + 9 * n ≤ length out.old }
    ensures { out.new ≡ placed at (bytes_for (times n month_fields) months.now) out.old }
{
    for i in 0..n {
        put_month(
            out,
            at + 9 * i,
            months[3 * i],
            months[3 * i + 1],
            months[3 * i + 2],
        );
    }
}

// The section of leap entries: their count, then each.
fn entry_section(leap: &[i64], n: usize, out: &mut [u8], at: usize)
    requires fit { Fit (times n entry_fields) leap.now }
    requires n_bound { n < 4294967296 }
    requires n_in_bounds { at + (4 + 8 * n) ≤ length out.old }
    ensures { out.new ≡ placed at (bytes4 (pos n) ++ bytes_for (times n entry_fields) leap.now) out.old }
{
    put4(out, at, signed(n));
    put_entries(leap, n, out, at + 4);
}

// The section of suis.
fn sui_section(suis: &[i64], n: usize, out: &mut [u8], at: usize)
    requires fit { Fit (times n sui_fields) suis.now }
    requires n_bound { n < 4294967296 }
    requires n_in_bounds { at + (4 + 5 * n) ≤ length out.old }
    ensures { out.new ≡ placed at (bytes4 (pos n) ++ bytes_for (times n sui_fields) suis.now) out.old }
{
    put4(out, at, signed(n));
    put_suis(suis, n, out, at + 4);
}

// The section of months.
fn month_section(months: &[i64], n: usize, out: &mut [u8], at: usize)
    requires fit { Fit (times n month_fields) months.now }
    requires n_bound { n < 4294967296 }
    requires n_in_bounds { at + (4 + 9 * n) ≤ length out.old }
    ensures { out.new ≡ placed at (bytes4 (pos n) ++ bytes_for (times n month_fields) months.now) out.old }
{
    put4(out, at, signed(n));
    put_months(months, n, out, at + 4);
}

// All three sections, from the front of `out` on.
pub fn put_content(leap: &[i64], suis: &[i64], months: &[i64], out: &mut [u8])
    requires fits_layout { FitsLayout (content leap.now suis.now months.now) }
    requires months_in_bounds { end_at (length leap.now / 2) (length suis.now / 2) (length months.now / 3) ≤ length out.old }
    ensures { out.new ≡ bytes_of (content leap.now suis.now months.now) ++ drop (length (bytes_of (content leap.now suis.now months.now))) out.old }
{
    let entries = leap.len() / 2;
    let years = suis.len() / 2;
    let second = 4 + 8 * entries;
    let third = second + 4 + 5 * years;
    entry_section(leap, entries, out, 0);
    sui_section(suis, years, out, second);
    month_section(months, months.len() / 3, out, third);
}
