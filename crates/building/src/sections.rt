// The file build from an input's words, section by section.
ghost use Rattle.std.specs.Prelude.{◌≡◌, ◌+◌, ◌≤◌, length};
ghost use Rattle.refusals.specs.Lent.{written_into};
ghost use Rattle.refusals.specs.Verdict.{paper};
ghost use Rattle.layout.specs.Layout.{inputs_at};
ghost use Rattle.almanac.specs.Answers.{bytes_counted, all_bytes};
ghost use Rattle.built.specs.Build.{bytes_built};
ghost use Rattle.building.specs.Building.{built_from_rest, built_from_words};

use layout::inner::find_places;
use refusals::Refusal;
use times::Second;

// By the words of leap table, Sun and Moon, whose sections stand at these places.
fn build_sections(
    words: &[i64],
    sun: usize,
    moon: usize,
    zone: i64,
    year: i64,
    count: i64,
    file: &mut [u8],
) -> Result<usize, Refusal>
    requires le_sun { (1 ≤ sun) × ((sun + 2 ≤ moon) × (moon + 2 ≤ length words.now)) }
    requires words_len_bound { length words.now ≤ 300000 }
    ensures result_value { paper result ≡ bytes_counted (bytes_built (inputs_at words.now (record { sun = sun; moon = moon })) zone year count (length file.old)) }
    ensures file_after { file.new ≡ written_into (bytes_built (inputs_at words.now (record { sun = sun; moon = moon })) zone year count (length file.old)) all_bytes file.old }
{
    let first = sun + 2;
    let behind = moon + 2;
    let sunstart = Second(words[sun + 1]);
    let moonstart = Second(words[moon + 1]);
    build::build(
        &words[1..sun],
        sunstart,
        &words[first..moon],
        moonstart,
        &words[behind..],
        zone,
        year,
        count,
        file,
    )
}

// By the words behind first Y and count.
fn build_rest(
    words: &[i64],
    zone: i64,
    year: i64,
    count: i64,
    file: &mut [u8],
) -> Result<usize, Refusal>
    requires { length words.now ≤ 300000 }
    ensures result_value { paper result ≡ bytes_counted (built_from_rest words.now zone year count (length file.old)) }
    ensures file_after { file.new ≡ written_into (built_from_rest words.now zone year count (length file.old)) all_bytes file.old }
{
    let p = find_places(words)?;
    build_sections(words, p.sun, p.moon, zone, year, count, file)
}

// By all words.
pub fn build_words(words: &[i64], zone: i64, file: &mut [u8]) -> Result<usize, Refusal>
    requires { length words.now ≤ 300000 }
    ensures result_value { paper result ≡ bytes_counted (built_from_words words.now zone (length file.old)) }
    ensures file_after { file.new ≡ written_into (built_from_words words.now zone (length file.old)) all_bytes file.old }
{
    if words.len() < 2 {
        return Err(Refusal::Layout);
    }
    build_rest(&words[2..], zone, words[0], words[1], file)
}
