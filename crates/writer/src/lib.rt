// The almanac file, written (document 01, "Almanac file").
#![tactic(auto)]

ghost use Rattle.std.specs.Prelude.{◌≡◌, length};
ghost use Rattle.refusals.specs.Verdict.{paper};
ghost use Rattle.refusals.specs.Lent.{written_into};
ghost use Rattle.content.specs.Content.{content};
ghost use Rattle.almanac.specs.Answers.{bytes_to_write, all_bytes, written_file};

use refusals::Refusal;

pub mod inner;
mod writing;

// Writes a content into a lent file and says how many bytes it took; 13 unless the content is lawful, then 12 where the file is too short.
pub fn write_file(
    leap: &[i64],
    suis: &[i64],
    months: &[i64],
    file: &mut [u8],
) -> Result<usize, Refusal>
    ensures result_value { paper result ≡ written_file (content leap.now suis.now months.now) (length file.old) }
    ensures file_after { file.new ≡ written_into (bytes_to_write (content leap.now suis.now months.now) (length file.old)) all_bytes file.old }
{
    if !content::inner::is_lawful(leap, suis, months) {
        return Err(Refusal::Layout);
    }
    inner::write_lawful(leap, suis, months, file)
}
