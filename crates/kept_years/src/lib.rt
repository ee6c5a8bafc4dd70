// Which suis of an almanac file a rebuild kept, as text: a line for each sui, its year and `kept` or `made`.
#![tactic(auto)]

ghost use Rattle.std.specs.Prelude.{◌≡◌, length};
ghost use Rattle.refusals.specs.Verdict.{paper};
ghost use Rattle.refusals.specs.Lent.{written_into};
ghost use Rattle.almanac.specs.Answers.{bytes_counted, all_bytes};
ghost use Rattle.kept_years.specs.Answers.{lines_listed};

use refusals::Refusal;

mod lines;
mod putting;

// Puts the lines of a file's suis, of which these years were kept, into lent room and says how many bytes they have; 13 unless the file is a lawful one, then 12
// where the room is too short.
pub fn list_years(file: &[u8], years: &[i64], out: &mut [u8]) -> Result<usize, Refusal>
    ensures result_value { paper result ≡ bytes_counted (lines_listed file.now years.now (length out.old)) }
    ensures out_after { out.new ≡ written_into (lines_listed file.now years.now (length out.old)) all_bytes out.old }
{
    let n = reader::check_file(file)?;
    putting::put_suis(file, n, years, out)
}
