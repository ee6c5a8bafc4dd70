// Which of the two series a build refuses by 2 to 5: its number alone does not say.
ghost use Rattle.std.specs.Prelude.{◌≡◌, ◌+◌, ◌≤◌, length};
ghost use Rattle.inputs.specs.Inputs.{inputs};
ghost use Rattle.layout.specs.Layout.{inputs_at};
ghost use Rattle.building.specs.Refused.{refused_of, refused_in_rest, refused_in_words};

use acceptance::accept;
use conversion::judge_leap_table;
use layout::inner::find_places;
use series::Body;
use times::Second;

// Of leap table, Sun and Moon.
fn of_inputs(
    leap: &[i64],
    sunstart: Second,
    sun: &[i64],
    moonstart: Second,
    moon: &[i64],
) -> Option<Body>
    ensures { result ≡ refused_of (inputs leap.now sunstart.0 sun.now moonstart.0 moon.now) }
{
    if judge_leap_table(leap).is_err() {
        return None;
    }
    if accept(Body::Sun, sunstart, sun).is_err() {
        return Some(Body::Sun);
    }
    if accept(Body::Moon, moonstart, moon).is_err() {
        return Some(Body::Moon);
    }
    None
}

// By the words of leap table, Sun and Moon, whose sections stand at these places.
fn in_sections(words: &[i64], sun: usize, moon: usize) -> Option<Body>
    requires le_sun { (1 ≤ sun) × ((sun + 2 ≤ moon) × (moon + 2 ≤ length words.now)) }
    requires words_len_bound { length words.now ≤ 300000 }
    ensures { result ≡ refused_of (inputs_at words.now (record { sun = sun; moon = moon })) }
{
    let first = sun + 2;
    let behind = moon + 2;
    let sunstart = Second(words[sun + 1]);
    let moonstart = Second(words[moon + 1]);
    of_inputs(
        &words[1..sun],
        sunstart,
        &words[first..moon],
        moonstart,
        &words[behind..],
    )
}

// By the words behind first Y and count.
fn in_rest(words: &[i64]) -> Option<Body>
    requires { length words.now ≤ 300000 }
    ensures { result ≡ refused_in_rest words.now }
{
    match find_places(words) {
        Err(_) => None,
        Ok(p) => in_sections(words, p.sun, p.moon),
    }
}

// By all words.
pub fn in_words(words: &[i64]) -> Option<Body>
    requires { length words.now ≤ 300000 }
    ensures { result ≡ refused_in_words words.now }
{
    if words.len() < 2 {
        return None;
    }
    in_rest(&words[2..])
}
