// A corrected series against the one before it. Callers show that the old one is accepted, and hand on which segments changed.
ghost use Rattle.std.specs.Prelude.{◌≡◌};
ghost use Rattle.refusals.specs.Verdict.{paper};
ghost use Rattle.series.specs.declared.Body.TheVariants.{Sun, Moon};
ghost use Rattle.series.specs.Series.{series};
ghost use Rattle.series.specs.Acceptance.{Accepted, series_judged};
ghost use Rattle.inputs.specs.Inputs.{inputs, inputs_judged};
ghost use Rattle.corrected.specs.Shared.{Shared, Stays};

use super::comparing::{changed_end, first_changed};
use super::judging::{begin_of, end_of, judged_part};
use super::reaching::{reached_before, reached_from};
use acceptance::inner::judging::shape;
use inputs::inner::any_early;
use refusals::Refusal;
use series::Body;
use times::Second;

// The segments from `first` on and before `end`: no other differs from the old one of its number.
#[derive(Clone, Copy)]
pub struct Changed {
    pub first: usize,
    pub end: usize,
}

// The marks behind `low` and up to `high`: no other listed mark is at another second than before.
#[derive(Clone, Copy)]
pub struct Moved {
    pub low: i64,
    pub high: i64,
}

// Which segments differ. The words before the first and behind the last that differs are compared once.
pub fn changed_segments(old: &[i64], coefs: &[i64]) -> Changed
    ensures { Shared old.now coefs.now result.first result.end }
{
    let first = first_changed(old, coefs);
    let end = changed_end(old, coefs, first);
    Changed {
        first: first,
        end: end,
    }
}

// Accepts the new series, or refuses it by 2, 3, 4 or 5, as `acceptance::accept` does, by judging what changed: of the other segments and joints the old series was
// accepted.
pub fn accept_again(
    body: Body,
    oldstart: Second,
    old: &[i64],
    start: Second,
    coefs: &[i64],
    part: Changed,
) -> Result<(), Refusal>
    requires accepted { Accepted (series body oldstart.0 old.now) }
    requires shared { Shared old.now coefs.now part.first part.end }
    ensures { paper result ≡ series_judged (series body start.0 coefs.now) }
{
    shape(body, start, coefs.len())?;
    let from = begin_of(part.first);
    let to = end_of(part.end, coefs.len() / 14);
    judged_part(body, coefs, from, to)
}

// Judges everything that a build is handed, as `inputs::judge` does: 1, then 2 to 5 for the Sun's and the Moon's series by what changed, then 7.
pub fn judge_again(
    oldsunstart: Second,
    oldsun: &[i64],
    oldmoonstart: Second,
    oldmoon: &[i64],
    leap: &[i64],
    sunstart: Second,
    sun: &[i64],
    moonstart: Second,
    moon: &[i64],
    sunpart: Changed,
    moonpart: Changed,
) -> Result<(), Refusal>
    requires accepted { Accepted (series Sun oldsunstart.0 oldsun.now) }
    requires accepted_2 { Accepted (series Moon oldmoonstart.0 oldmoon.now) }
    requires shared { Shared oldsun.now sun.now sunpart.first sunpart.end }
    requires shared_2 { Shared oldmoon.now moon.now moonpart.first moonpart.end }
    ensures { paper result ≡ inputs_judged (inputs leap.now sunstart.0 sun.now moonstart.0 moon.now) }
{
    conversion::judge_leap_table(leap)?;
    accept_again(Body::Sun, oldsunstart, oldsun, sunstart, sun, sunpart)?;
    accept_again(Body::Moon, oldmoonstart, oldmoon, moonstart, moon, moonpart)?;
    if any_early(leap, Body::Sun, sunstart, sun) {
        return Err(Refusal::TooEarly);
    }
    if any_early(leap, Body::Moon, moonstart, moon) {
        return Err(Refusal::TooEarly);
    }
    Ok(())
}

// Which marks may have moved, where both series begin at the same second.
pub fn moved_marks(body: Body, start: Second, old: &[i64], coefs: &[i64], part: Changed) -> Moved
    requires accepted { Accepted (series body start.0 old.now) }
    requires accepted_2 { Accepted (series body start.0 coefs.now) }
    requires shared { Shared old.now coefs.now part.first part.end }
    ensures { Stays (series body start.0 old.now) (series body start.0 coefs.now) result.low result.high }
{
    let low = reached_before(body, start, coefs, part.first);
    let high = reached_from(body, start, coefs, part.end);
    Moved {
        low: low,
        high: high,
    }
}
