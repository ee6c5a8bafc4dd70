// The lines of a lawful file's suis, put into lent room.
ghost use Rattle.std.specs.Prelude.{◌≡◌, ◌*◌, ◌≤◌, ◌<◌, length};
ghost use Rattle.whole.specs.Lists.{placed};
ghost use Rattle.refusals.specs.Verdict.{paper};
ghost use Rattle.refusals.specs.Lent.{written_into};
ghost use Rattle.content.specs.Content.{year_at};
ghost use Rattle.almanac.specs.Layout.{end_at, content_at};
ghost use Rattle.almanac.specs.Answers.{bytes_counted, all_bytes};
ghost use Rattle.kept_years.specs.KeptYears.{lines};
ghost use Rattle.kept_years.specs.Answers.{lines_into};

use crate::lines::line_bytes;
use almanac::Counts;
use refusals::Refusal;
use text::inner::put;
use words::inner::signed4_at;

// The year of sui i of a file of these counts.
fn year_at(file: &[u8], n: Counts, i: usize) -> i64
    requires months_in_bounds { end_at n.entries n.suis n.months ≤ length file.now }
    requires i_lt_suis { i < n.suis }
    ensures { result ≡ year_at (content_at file.now n).suis i }
{
    signed4_at(file, 4 + 8 * n.entries + 4 + 5 * i)
}

// The lines of all suis of a file of these counts.
fn put_lines(file: &[u8], n: Counts, years: &[i64], out: &mut [u8])
    requires months_in_bounds { end_at n.entries n.suis n.months ≤ length file.now }
    requires suis_in_bounds { 10 * n.suis ≤ length out.old }
    ensures { out.new ≡ placed 0 (lines (content_at file.now n).suis years.now n.suis) out.old }
{
    for i in 0..n.suis {
        let line = line_bytes(year_at(file, n, i), years);
        put(out, 10 * i, &line);
    }
}

// The same, and how many bytes they have; 12 where the room is too short.
pub fn put_suis(file: &[u8], n: Counts, years: &[i64], out: &mut [u8]) -> Result<usize, Refusal>
    requires months_in_bounds { end_at n.entries n.suis n.months ≤ length file.now }
    requires suis_bound { n.suis ≤ 128 }
    ensures result_value { paper result ≡ bytes_counted (lines_into (lines (content_at file.now n).suis years.now n.suis) (length out.old)) }
    ensures out_after { out.new ≡ written_into (lines_into (lines (content_at file.now n).suis years.now n.suis) (length out.old)) all_bytes out.old }
{
    let bytes = 10 * n.suis;
    if out.len() < bytes {
        return Err(Refusal::Room);
    }
    put_lines(file, n, years, out);
    Ok(bytes)
}
