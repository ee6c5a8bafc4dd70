// The file build: the suis of consecutive years, from leap table, Sun and Moon into a lent almanac file (document 01, "Almanac file").
#![tactic(auto)]

ghost use Rattle.std.specs.Prelude.{◌≡◌, length};
ghost use Rattle.refusals.specs.Verdict.{paper};
ghost use Rattle.refusals.specs.Lent.{written_into};
ghost use Rattle.inputs.specs.Inputs.{inputs};
ghost use Rattle.almanac.specs.Answers.{all_bytes};
ghost use Rattle.built.specs.Build.{bytes_built, file_built};

use refusals::Refusal;
use times::Second;
use whole::inner::in_range;

pub mod inner;
mod years;

// Builds the file of `count` suis from year `first` on, by the days of a zone, and says how many bytes it took. Everything is judged before the first byte is written.
pub fn build(
    leap: &[i64],
    sunstart: Second,
    sun: &[i64],
    moonstart: Second,
    moon: &[i64],
    zone: i64,
    first: i64,
    count: i64,
    file: &mut [u8],
) -> Result<usize, Refusal>
    ensures result_value { paper result ≡ file_built (inputs leap.now sunstart.0 sun.now moonstart.0 moon.now) zone first count (length file.old) }
    ensures file_after { file.new ≡ written_into (bytes_built (inputs leap.now sunstart.0 sun.now moonstart.0 moon.now) zone first count (length file.old)) all_bytes file.old }
{
    inputs::judge_in(leap, sunstart, sun, moonstart, moon, zone)?;
    if !in_range(1, 128, count) {
        return Err(Refusal::NoSui);
    }
    let n = whole::inner::count(count);
    inner::build_in(leap, sunstart, sun, moonstart, moon, zone, first, n, file)
}
