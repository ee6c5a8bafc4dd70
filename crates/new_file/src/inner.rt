// For the rebuild of a file. Callers show that the content is lawful.
ghost use Rattle.std.specs.Prelude.{◌≡◌, true, length};
ghost use Rattle.refusals.specs.Verdict.{paper};
ghost use Rattle.refusals.specs.Lent.{written_into};
ghost use Rattle.content.specs.Content.{content, lawful};
ghost use Rattle.almanac.specs.Answers.{bytes_into};
ghost use Rattle.rebuilt.specs.Rebuild.{new_file_by, counted, new_bytes, kept_years};

use rebuilt::Rebuilt;
use refusals::Refusal;
use whole::inner::put_words;
use writer::inner::write_lawful;

// Writes a content and the listed years; 12 where the bytes or the years have no room.
pub fn write_both(
    leap: &[i64],
    suis: &[i64],
    months: &[i64],
    listed: &[i64],
    file: &mut [u8],
    years: &mut [i64],
) -> Result<Rebuilt, Refusal>
    requires { lawful (content leap.now suis.now months.now) ≡ true }
    ensures result_value { paper result ≡ counted (new_file_by (bytes_into (content leap.now suis.now months.now) (length file.old)) listed.now (length years.old)) }
    ensures file_after { file.new ≡ written_into (new_file_by (bytes_into (content leap.now suis.now months.now) (length file.old)) listed.now (length years.old)) new_bytes file.old }
    ensures years_after { years.new ≡ written_into (new_file_by (bytes_into (content leap.now suis.now months.now) (length file.old)) listed.now (length years.old)) kept_years years.old }
{
    let n = listed.len();
    if years.len() < n {
        return Err(Refusal::Room);
    }
    let bytes = write_lawful(leap, suis, months, file)?;
    put_words(listed, years, 0);
    Ok(Rebuilt { bytes, years: n })
}
