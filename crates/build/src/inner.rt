// For builds in other zones: the file of n suis of accepted inputs. The zone is in minutes. And the records of a sui, as words.
ghost use Rattle.std.specs.Prelude.{◌≡◌, ◌≤◌, ◌<◌, length};
ghost use Rattle.refusals.specs.Verdict.{paper};
ghost use Rattle.whole.specs.Ranges.{Within};
ghost use Rattle.refusals.specs.Lent.{written_into};
ghost use Rattle.inputs.specs.Inputs.{inputs};
ghost use Rattle.inputs.specs.Known.{Known};
ghost use Rattle.almanac.specs.Answers.{bytes_counted, all_bytes};
ghost use Rattle.built.specs.Build.{bytes_of_years};

use ahead::build_at;
use refusals::Refusal;
use series::Body;
use suis::inner::begin;
use times::Second;
use turns::inner::turns_of;

pub mod ahead;
pub mod records;

// Finds where the first sui begins, and builds from there.
pub fn build_in(
    leap: &[i64],
    sunstart: Second,
    sun: &[i64],
    moonstart: Second,
    moon: &[i64],
    zone: i64,
    first: i64,
    n: usize,
    file: &mut [u8],
) -> Result<usize, Refusal>
    requires known { Known (inputs leap.now sunstart.0 sun.now moonstart.0 moon.now) }
    requires within { Within 1000 zone }
    requires n_nonzero { 0 < n }
    requires n_bound { n ≤ 128 }
    ensures result_value { paper result ≡ bytes_counted (bytes_of_years (inputs leap.now sunstart.0 sun.now moonstart.0 moon.now) zone first n (length file.old)) }
    ensures file_after { file.new ≡ written_into (bytes_of_years (inputs leap.now sunstart.0 sun.now moonstart.0 moon.now) zone first n (length file.old)) all_bytes file.old }
{
    let suns = turns_of(Body::Sun, sunstart, sun);
    let moons = turns_of(Body::Moon, moonstart, moon);
    let places = begin(
        leap, sunstart, sun, moonstart, moon, zone, suns, moons, first,
    )?;
    build_at(
        leap, sunstart, sun, moonstart, moon, zone, suns, moons, places, first, n, file,
    )
}
