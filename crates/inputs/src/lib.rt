// Leap table, Sun and Moon, judged together: what every build begins with.
#![tactic(auto)]

ghost use Rattle.std.specs.Prelude.{◌≡◌};
ghost use Rattle.refusals.specs.Verdict.{paper};
ghost use Rattle.inputs.specs.Inputs.{inputs, inputs_judged, judged_in};

use conversion::inner::is_zone;
use refusals::Refusal;
use series::Body;
use times::Second;

pub mod inner;

// Judges everything that a build is handed: the leap table (1), the whole Sun series and the whole Moon series (2 to 5), and that no listed mark lies before the
// first leap entry (7).
pub fn judge(
    leap: &[i64],
    sunstart: Second,
    sun: &[i64],
    moonstart: Second,
    moon: &[i64],
) -> Result<(), Refusal>
    ensures { paper result ≡ inputs_judged (inputs leap.now sunstart.0 sun.now moonstart.0 moon.now) }
{
    conversion::judge_leap_table(leap)?;
    acceptance::accept(Body::Sun, sunstart, sun)?;
    acceptance::accept(Body::Moon, moonstart, moon)?;
    if inner::any_early(leap, Body::Sun, sunstart, sun) {
        return Err(Refusal::TooEarly);
    }
    if inner::any_early(leap, Body::Moon, moonstart, moon) {
        return Err(Refusal::TooEarly);
    }
    Ok(())
}

// The same for a call that answers in a zone: the zone is judged first of all (15).
pub fn judge_in(
    leap: &[i64],
    sunstart: Second,
    sun: &[i64],
    moonstart: Second,
    moon: &[i64],
    zone: i64,
) -> Result<(), Refusal>
    ensures { paper result ≡ judged_in (inputs leap.now sunstart.0 sun.now moonstart.0 moon.now) zone }
{
    if !is_zone(zone) {
        return Err(Refusal::Zone);
    }
    judge(leap, sunstart, sun, moonstart, moon)
}
