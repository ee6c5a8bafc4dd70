// The file build from an input of bytes, by the days of a zone: first Y and count of suis, then leap table, Sun and Moon in the listing's layout. The bytes come in
// pieces, of which the words are kept (`pieces`).
#![tactic(auto)]

ghost use Rattle.std.specs.Prelude.{◌≡◌, length};
ghost use Rattle.refusals.specs.Lent.{written_into};
ghost use Rattle.refusals.specs.Verdict.{paper};
ghost use Rattle.almanac.specs.Answers.{bytes_counted, all_bytes};
ghost use Rattle.building.specs.Building.{built_from_taken};
ghost use Rattle.building.specs.Refused.{refused_in_taken};

use conversion::inner::is_zone;
use refusals::Refusal;
use series::Body;

pub mod inner;
mod refused;
mod sections;

// Builds the file that an input of so many bytes asks for, whose words were taken in pieces, and says how many bytes it took; 15 for the zone, then 13 where it breaks
// its layout.
pub fn build_taken(
    words: &[i64],
    bytes: usize,
    zone: i64,
    file: &mut [u8],
) -> Result<usize, Refusal>
    ensures result_value { paper result ≡ bytes_counted (built_from_taken words.now bytes zone (length file.old)) }
    ensures file_after { file.new ≡ written_into (built_from_taken words.now bytes zone (length file.old)) all_bytes file.old }
{
    if !is_zone(zone) {
        return Err(Refusal::Zone);
    }
    if !inner::all_taken(words, bytes) {
        return Err(Refusal::Layout);
    }
    sections::build_words(&words[..bytes / 8], zone, file)
}

// Which series is to blame where the build refuses by 2 to 5; for every other input neither.
pub fn refused_series(words: &[i64], bytes: usize, zone: i64) -> Option<Body>
    ensures { result ≡ refused_in_taken words.now bytes zone }
{
    if !is_zone(zone) {
        return None;
    }
    if !inner::all_taken(words, bytes) {
        return None;
    }
    refused::in_words(&words[..bytes / 8])
}
