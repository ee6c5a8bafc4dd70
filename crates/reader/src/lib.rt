// The almanac file, checked and read (document 01, "Almanac file").
#![tactic(auto)]

ghost use Rattle.std.specs.Prelude.{◌≡◌, length};
ghost use Rattle.refusals.specs.Verdict.{paper};
ghost use Rattle.refusals.specs.Lent.{written_into};
ghost use Rattle.content.specs.Content.{leap_words, sui_words, month_words};
ghost use Rattle.almanac.specs.Answers.{checked_file, content_read, read_file};

use almanac::Counts;
use refusals::Refusal;

mod checking;
pub mod inner;
mod layout;
mod reading;

// Checks a whole file: how many leap entries, suis and months it has; 13 unless it is a lawful one.
pub fn check_file(file: &[u8]) -> Result<Counts, Refusal>
    ensures { paper result ≡ checked_file file.now }
{
    let n = layout::counts_of(file)?;
    if !checking::lawful_at(file, n) {
        return Err(Refusal::Layout);
    }
    Ok(n)
}

// Reads a file into lent words: two for each leap entry, two for each sui, three for each month; 13 unless it is a lawful one, then 12 where a list does not fit.
pub fn read_file(
    file: &[u8],
    leap: &mut [i64],
    suis: &mut [i64],
    months: &mut [i64],
) -> Result<Counts, Refusal>
    ensures result_value { paper result ≡ read_file file.now (length leap.old) (length suis.old) (length months.old) }
    ensures leap_after { leap.new ≡ written_into (content_read file.now (length leap.old) (length suis.old) (length months.old)) leap_words leap.old }
    ensures suis_after { suis.new ≡ written_into (content_read file.now (length leap.old) (length suis.old) (length months.old)) sui_words suis.old }
    ensures months_after { months.new ≡ written_into (content_read file.now (length leap.old) (length suis.old) (length months.old)) month_words months.old }
{
    let n = check_file(file)?;
    if reading::too_short(n, leap.len(), suis.len(), months.len()) {
        return Err(Refusal::Room);
    }
    reading::read_all(file, n, leap, suis, months);
    Ok(n)
}
