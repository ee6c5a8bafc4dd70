// The sections of inputs whose words were taken.
ghost use Rattle.std.specs.Prelude.{◌≡◌, length};
ghost use Rattle.refusals.specs.Lent.{written_into};
ghost use Rattle.refusals.specs.Verdict.{paper};
ghost use Rattle.layout.specs.Layout.{inputs_at};
ghost use Rattle.rebuilt.specs.Rebuild.{rebuilt, counted, new_bytes, kept_years};
ghost use Rattle.rebuilt_from.specs.theory.Cases.{places_taken, Sections};

use building::inner::all_taken;
use layout::inner::{Places, find_places};
use rebuilt::Rebuilt;
use refusals::Refusal;
use times::Second;

// Where they stand behind first Y and count; 13 where the input breaks its layout.
pub fn find_sections(words: &[i64], bytes: usize) -> Result<Places, Refusal>
    ensures { paper result ≡ places_taken words.now bytes }
{
    if !all_taken(words, bytes) {
        return Err(Refusal::Layout);
    }
    let end = bytes / 8;
    if end < 2 {
        return Err(Refusal::Layout);
    }
    find_places(&words[2..end])
}

// The rebuild by the words of two inputs behind first Y and count, whose sections stand at these places.
pub fn rebuild_sections(
    old: &[u8],
    oldwords: &[i64],
    oldplaces: Places,
    words: &[i64],
    places: Places,
    zone: i64,
    file: &mut [u8],
    years: &mut [i64],
) -> Result<Rebuilt, Refusal>
    requires sections { Sections oldwords.now oldplaces }
    requires sections_2 { Sections words.now places }
    ensures result_value { paper result ≡ counted (rebuilt (inputs_at oldwords.now oldplaces) (inputs_at words.now places) zone old.now (length file.old) (length years.old)) }
    ensures file_after { file.new ≡ written_into (rebuilt (inputs_at oldwords.now oldplaces) (inputs_at words.now places) zone old.now (length file.old) (length years.old)) new_bytes file.old }
    ensures years_after { years.new ≡ written_into (rebuilt (inputs_at oldwords.now oldplaces) (inputs_at words.now places) zone old.now (length file.old) (length years.old)) kept_years years.old }
{
    let oldsun = oldplaces.sun;
    let oldmoon = oldplaces.moon;
    let oldfirst = oldsun + 2;
    let oldbehind = oldmoon + 2;
    let oldsunstart = Second(oldwords[oldsun + 1]);
    let oldmoonstart = Second(oldwords[oldmoon + 1]);
    let sun = places.sun;
    let moon = places.moon;
    let first = sun + 2;
    let behind = moon + 2;
    let sunstart = Second(words[sun + 1]);
    let moonstart = Second(words[moon + 1]);
    rebuild::rebuild(
        old,
        &oldwords[1..oldsun],
        oldsunstart,
        &oldwords[oldfirst..oldmoon],
        oldmoonstart,
        &oldwords[oldbehind..],
        &words[1..sun],
        sunstart,
        &words[first..moon],
        moonstart,
        &words[behind..],
        zone,
        file,
        years,
    )
}
