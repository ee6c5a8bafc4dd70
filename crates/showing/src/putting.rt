// The text of months whose first days have dates, put into lent room.
ghost use Rattle.std.specs.Prelude.{◌≡◌, ◌+◌, ◌*◌, ◌/◌, ◌≤◌, length, true};
ghost use Rattle.refusals.specs.Verdict.{paper};
ghost use Rattle.refusals.specs.Lent.{written_into};
ghost use Rattle.whole.specs.Lists.{placed};
ghost use Rattle.dates.specs.Answers.{has_date};
ghost use Rattle.content.specs.Content.{month_at};
ghost use Rattle.showing.specs.Shown.{line, lines, text};
ghost use Rattle.showing.specs.Answers.{text_into, counted, all_bytes};
ghost use Rattle.showing.specs.theory.Dated.{Dated};

use crate::lines::{header_bytes, line_bytes};
use months::Month;
use refusals::Refusal;
use text::inner::put;

// The line of month i.
fn line_at(months: &[i64], i: usize) -> [u8; 44]
    requires i_in_bounds { 3 * i + 3 ≤ length months.now }
    requires i_value { has_date (month_at months.now i).first ≡ true }
    ensures { result ≡ line (month_at months.now i) }
{
    line_bytes(Month {
        handle: months[3 * i],
        first: months[3 * i + 1],
        length: months[3 * i + 2],
    })
}

// The lines of the first n months, behind the header's place.
fn put_lines(months: &[i64], n: usize, out: &mut [u8])
    requires n_in_bounds { 3 * n ≤ length months.now }
    requires dated { Dated months.now n }
    requires n_in_bounds_2 { 44 + 44 * n ≤ length out.old }
    ensures { out.new ≡ placed 44 (lines months.now n) out.old }
{
    for i in 0..n {
        let line = line_at(months, i);
        put(out, 44 + 44 * i, &line);
    }
}

// The whole text and how many bytes it has, or 12 where the room is too short.
pub fn show_months(months: &[i64], out: &mut [u8]) -> Result<usize, Refusal>
    requires dated { Dated months.now (length months.now / 3) }
    requires months_len_bound { length months.now ≤ 4992 }
    ensures result_value { paper result ≡ counted (text_into (text months.now (length months.now / 3)) (length out.old)) }
    ensures out_after { out.new ≡ written_into (text_into (text months.now (length months.now / 3)) (length out.old)) all_bytes out.old }
{
    let n = months.len() / 3;
    let bytes = 44 + 44 * n;
    if out.len() < bytes {
        return Err(Refusal::Room);
    }
    let header = header_bytes();
    put(out, 0, &header);
    put_lines(months, n, out);
    Ok(bytes)
}
