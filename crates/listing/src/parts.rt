// A part of the listing of an input: its judgement, and the lines from one on that fit the room.
ghost use Rattle.std.specs.Prelude.{◌≡◌, [], ◌∷◌, ◌+◌, ◌<◌, ◌≤◌, length, get_or};
ghost use Rattle.refusals.specs.Verdict.{refusal_number};
ghost use Rattle.text.specs.Text.{refusal_line};
ghost use Rattle.inputs.specs.Inputs.{inputs};
ghost use Rattle.inputs.specs.Known.{Known};
ghost use Rattle.listed.specs.Listing.{lines_of, listed, listed_words, printed};
ghost use Rattle.whole.specs.Ranges.{Within};
ghost use Rattle.series.specs.declared.Body.TheVariants.{Sun, Moon};
ghost use Rattle.series.specs.Series.{series};
ghost use Rattle.marks.specs.Listed.{first_reached, listed_marks};
ghost use Rattle.layout.specs.Layout.{inputs_at};
ghost use Rattle.listing.specs.Lines.{line_text};
ghost use Rattle.listing.specs.Parts.{part_answer, part_held};

use crate::lines::Line;
use crate::{Part, lines};
use refusals::Refusal;
use series::Body;
use times::Second;

// Line i: the Sun's come first.
fn line_at(
    leap: &[i64],
    sunstart: Second,
    sun: &[i64],
    moonstart: Second,
    moon: &[i64],
    zone: i64,
    sunlowest: i64,
    moonlowest: i64,
    suns: usize,
    i: usize,
) -> Line
    requires known { Known (inputs leap.now sunstart.0 sun.now moonstart.0 moon.now) }
    requires sunlowest_value { sunlowest ≡ first_reached (series Sun sunstart.0 sun.now) }
    requires moonlowest_value { moonlowest ≡ first_reached (series Moon moonstart.0 moon.now) }
    requires suns_value { suns ≡ length (listed_marks (series Sun sunstart.0 sun.now)) }
    requires i_in_bounds { i < length (lines_of (inputs leap.now sunstart.0 sun.now moonstart.0 moon.now) zone) }
    requires within { Within 1000 zone }
    ensures { line_text result ≡ get_or (lines_of (inputs leap.now sunstart.0 sun.now moonstart.0 moon.now) zone) i [] }
{
    if i < suns {
        return lines::line_of(Body::Sun, leap, sunstart, sun, zone, sunlowest, i);
    }
    lines::line_of(
        Body::Moon,
        leap,
        moonstart,
        moon,
        zone,
        moonlowest,
        i - suns,
    )
}

// The lines from `from` on that fit the room.
pub fn put_lines(
    leap: &[i64],
    sunstart: Second,
    sun: &[i64],
    moonstart: Second,
    moon: &[i64],
    zone: i64,
    from: usize,
    room: &mut [u8],
) -> Part
    requires known { Known (inputs leap.now sunstart.0 sun.now moonstart.0 moon.now) }
    requires within { Within 1000 zone }
    ensures value { result ≡ part_answer (lines_of (inputs leap.now sunstart.0 sun.now moonstart.0 moon.now) zone) from (length room.old) }
    ensures room_after { room.new ≡ part_held (lines_of (inputs leap.now sunstart.0 sun.now moonstart.0 moon.now) zone) from room.old }
{
    let suns = finder::inner::count(Body::Sun, sunstart, sun);
    let moons = finder::inner::count(Body::Moon, moonstart, moon);
    let sunlowest = finder::inner::first_reached(Body::Sun, sunstart, sun);
    let moonlowest = finder::inner::first_reached(Body::Moon, moonstart, moon);
    let total = suns + moons;
    let mut at = 0;
    for i in from..total {
        let line = line_at(
            leap, sunstart, sun, moonstart, moon, zone, sunlowest, moonlowest, suns, i,
        );
        if room.len() - at < text::inner::line_length(line.index) {
            return Part {
                lines: i - from,
                bytes: at,
            };
        }
        let moment = line.moment;
        at = text::inner::put_line(room, at, line.letter, line.index, moment);
    }
    Part {
        lines: total.saturating_sub(from),
        bytes: at,
    }
}

// A part of a listing that is one line.
fn put_only(line: &[u8], from: usize, room: &mut [u8]) -> Part
    ensures value { result ≡ part_answer (line.now ∷ []) from (length room.old) }
    ensures room_after { room.new ≡ part_held (line.now ∷ []) from room.old }
{
    if from > 0 {
        return Part { lines: 0, bytes: 0 };
    }
    if room.len() < line.len() {
        return Part { lines: 0, bytes: 0 };
    }
    text::inner::put(room, 0, line);
    Part {
        lines: 1,
        bytes: line.len(),
    }
}

// A part of what is printed for a refusal.
pub fn put_refusal(refusal: Refusal, from: usize, room: &mut [u8]) -> Part
    ensures value { result ≡ part_answer (refusal_line (refusal_number refusal) ∷ []) from (length room.old) }
    ensures room_after { room.new ≡ part_held (refusal_line (refusal_number refusal) ∷ []) from room.old }
{
    let number = refusal.number() as u64;
    if number < 10 {
        let line = text::inner::short_refusal(number);
        return put_only(&line, from, room);
    }
    let line = text::inner::long_refusal(number);
    put_only(&line, from, room)
}

// A part of what is printed for an input.
pub fn put_input(
    leap: &[i64],
    sunstart: Second,
    sun: &[i64],
    moonstart: Second,
    moon: &[i64],
    zone: i64,
    from: usize,
    room: &mut [u8],
) -> Part
    requires { Within 1000 zone }
    ensures value { result ≡ part_answer (printed (listed (inputs leap.now sunstart.0 sun.now moonstart.0 moon.now) zone)) from (length room.old) }
    ensures room_after { room.new ≡ part_held (printed (listed (inputs leap.now sunstart.0 sun.now moonstart.0 moon.now) zone)) from room.old }
{
    match inputs::judge(leap, sunstart, sun, moonstart, moon) {
        Err(refusal) => put_refusal(refusal, from, room),
        Ok(()) => put_lines(leap, sunstart, sun, moonstart, moon, zone, from, room),
    }
}

// A part of what is printed for words whose sections stand at these places.
fn put_sections(
    words: &[i64],
    sun: usize,
    moon: usize,
    zone: i64,
    from: usize,
    room: &mut [u8],
) -> Part
    requires le_sun { (1 ≤ sun) × ((sun + 2 ≤ moon) × (moon + 2 ≤ length words.now)) }
    requires words_len_bound { length words.now ≤ 8192 }
    requires within { Within 1000 zone }
    ensures value { result ≡ part_answer (printed (listed (inputs_at words.now (record { sun = sun; moon = moon })) zone)) from (length room.old) }
    ensures room_after { room.new ≡ part_held (printed (listed (inputs_at words.now (record { sun = sun; moon = moon })) zone)) from room.old }
{
    let first = sun + 2;
    let behind = moon + 2;
    let sunstart = Second(words[sun + 1]);
    let moonstart = Second(words[moon + 1]);
    put_input(
        &words[1..sun],
        sunstart,
        &words[first..moon],
        moonstart,
        &words[behind..],
        zone,
        from,
        room,
    )
}

// A part of what is printed for the input's words.
pub fn put_words(words: &[i64], zone: i64, from: usize, room: &mut [u8]) -> Part
    requires words_len_bound { length words.now ≤ 8192 }
    requires within { Within 1000 zone }
    ensures value { result ≡ part_answer (printed (listed_words words.now zone)) from (length room.old) }
    ensures room_after { room.new ≡ part_held (printed (listed_words words.now zone)) from room.old }
{
    match layout::inner::find_places(words) {
        Err(refusal) => put_refusal(refusal, from, room),
        Ok(p) => put_sections(words, p.sun, p.moon, zone, from, room),
    }
}
