// An almanac file as text for people: a header and a line for each month.
#![tactic(auto)]

ghost use Rattle.std.specs.Prelude.{◌≡◌, length};
ghost use Rattle.refusals.specs.Verdict.{paper};
ghost use Rattle.refusals.specs.Lent.{written_into};
ghost use Rattle.showing.specs.Answers.{text_shown, all_bytes, shown};

use refusals::Refusal;

mod lines;
mod putting;

// Room for the words of the largest lawful file: 64 leap entries, 128 suis, 1664 months.
fn entry_words() -> [i64; 128]
    ensures { 128 ≡ length result }
{
    [0; 128]
}

fn sui_words() -> [i64; 256]
    ensures { 256 ≡ length result }
{
    [0; 256]
}

fn month_words() -> [i64; 4992]
    ensures { 4992 ≡ length result }
{
    [0; 4992]
}

// Puts the text of a file into lent room and says how many bytes it has; 13 unless the file is a lawful one, then 12 where the room is too short.
pub fn show(file: &[u8], out: &mut [u8]) -> Result<usize, Refusal>
    ensures result_value { paper result ≡ shown file.now (length out.old) }
    ensures out_after { out.new ≡ written_into (text_shown file.now (length out.old)) all_bytes out.old }
{
    let mut leap = entry_words();
    let mut suis = sui_words();
    // Kept: fixed memory, no heap.
    let mut words = month_words();
    let n = reader::read_file(file, &mut leap, &mut suis, &mut words)?;
    putting::show_months(&words[..3 * n.months], out)
}
