// For builds: a content that is known to be lawful. Callers show that it is.
ghost use Rattle.std.specs.Prelude.{◌≡◌, true, length};
ghost use Rattle.refusals.specs.Verdict.{paper};
ghost use Rattle.refusals.specs.Lent.{written_into};
ghost use Rattle.content.specs.Content.{content, lawful};
ghost use Rattle.almanac.specs.Answers.{bytes_into, bytes_counted, all_bytes};

use crate::writing::put_content;
use refusals::Refusal;

// Writes a lawful content into a lent file and says how many bytes it took; 12 where the file is too short.
pub fn write_lawful(
    leap: &[i64],
    suis: &[i64],
    months: &[i64],
    file: &mut [u8],
) -> Result<usize, Refusal>
    requires { lawful (content leap.now suis.now months.now) ≡ true }
    ensures result_value { paper result ≡ bytes_counted (bytes_into (content leap.now suis.now months.now) (length file.old)) }
    ensures file_after { file.new ≡ written_into (bytes_into (content leap.now suis.now months.now) (length file.old)) all_bytes file.old }
{
    let third = 8 + 8 * (leap.len() / 2) + 5 * (suis.len() / 2);
    let end = third + 4 + 9 * (months.len() / 3);
    if file.len() < end {
        return Err(Refusal::Room);
    }
    put_content(leap, suis, months, file);
    Ok(end)
}
