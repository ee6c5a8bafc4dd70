// The rebuild from inputs of bytes: an old almanac file, the input that it was built from, and a new one. The bytes of an input come in pieces, of which the words are
// kept (`pieces`).
#![tactic(auto)]

ghost use Rattle.std.specs.Prelude.{◌≡◌, length};
ghost use Rattle.refusals.specs.Verdict.{paper};
ghost use Rattle.refusals.specs.Lent.{written_into};
ghost use Rattle.rebuilt.specs.Rebuild.{counted, new_bytes, kept_years};
ghost use Rattle.rebuilt_from.specs.RebuiltFrom.{rebuilt_from_taken};

use conversion::inner::is_zone;
use rebuilt::Rebuilt;
use refusals::Refusal;

mod sections;

// Rebuilds the old file by the new input, of so many bytes each, whose words were taken in pieces, and says how many bytes and how many years it took; 15 for the zone,
// then 13 where an input breaks its layout.
pub fn rebuild_taken(
    old: &[u8],
    oldwords: &[i64],
    oldbytes: usize,
    words: &[i64],
    bytes: usize,
    zone: i64,
    file: &mut [u8],
    years: &mut [i64],
) -> Result<Rebuilt, Refusal>
    ensures result_value { paper result ≡ counted (rebuilt_from_taken old.now oldwords.now oldbytes words.now bytes zone (length file.old) (length years.old)) }
    ensures file_after { file.new ≡ written_into (rebuilt_from_taken old.now oldwords.now oldbytes words.now bytes zone (length file.old) (length years.old)) new_bytes file.old }
    ensures years_after { years.new ≡ written_into (rebuilt_from_taken old.now oldwords.now oldbytes words.now bytes zone (length file.old) (length years.old)) kept_years years.old }
{
    if !is_zone(zone) {
        return Err(Refusal::Zone);
    }
    let oldplaces = sections::find_sections(oldwords, oldbytes)?;
    let places = sections::find_sections(words, bytes)?;
    sections::rebuild_sections(
        old,
        &oldwords[2..oldbytes / 8],
        oldplaces,
        &words[2..bytes / 8],
        places,
        zone,
        file,
        years,
    )
}
