// The rebuild: the suis of an old almanac file from corrected inputs, and the years of those that the correction leaves as they were (document 02, orders 1 and 5).
#![tactic(auto)]

ghost use Rattle.std.specs.Prelude.{◌≡◌, length};
ghost use Rattle.refusals.specs.Verdict.{paper};
ghost use Rattle.refusals.specs.Lent.{written_into};
ghost use Rattle.inputs.specs.Inputs.{inputs};
ghost use Rattle.rebuilt.specs.Rebuild.{rebuilt, counted, new_bytes, kept_years};

use conversion::inner::is_zone;
use rebuilt::Rebuilt;
use refusals::Refusal;
use times::Second;

mod known;
mod new;
mod old;
mod writing;

// Rebuilds the file of the old file's years from new inputs, by the days of a zone, and lists the years of the suis whose days they leave as they were: 15 for the
// zone, 13 unless the old inputs give the old file in it, then as a build of the new inputs refuses, then 12 where bytes or years have no room. Refused, nothing is
// written.
pub fn rebuild(
    old: &[u8],
    oldleap: &[i64],
    oldsunstart: Second,
    oldsun: &[i64],
    oldmoonstart: Second,
    oldmoon: &[i64],
    leap: &[i64],
    sunstart: Second,
    sun: &[i64],
    moonstart: Second,
    moon: &[i64],
    zone: i64,
    file: &mut [u8],
    years: &mut [i64],
) -> Result<Rebuilt, Refusal>
    ensures result_value { paper result ≡ counted (rebuilt (inputs oldleap.now oldsunstart.0 oldsun.now oldmoonstart.0 oldmoon.now) (inputs leap.now sunstart.0 sun.now moonstart.0 moon.now) zone old.now (length file.old) (length years.old)) }
    ensures file_after { file.new ≡ written_into (rebuilt (inputs oldleap.now oldsunstart.0 oldsun.now oldmoonstart.0 oldmoon.now) (inputs leap.now sunstart.0 sun.now moonstart.0 moon.now) zone old.now (length file.old) (length years.old)) new_bytes file.old }
    ensures years_after { years.new ≡ written_into (rebuilt (inputs oldleap.now oldsunstart.0 oldsun.now oldmoonstart.0 oldmoon.now) (inputs leap.now sunstart.0 sun.now moonstart.0 moon.now) zone old.now (length file.old) (length years.old)) kept_years years.old }
{
    if !is_zone(zone) {
        return Err(Refusal::Zone);
    }
    let span = old::years_in(old)?;
    if inputs::judge(oldleap, oldsunstart, oldsun, oldmoonstart, oldmoon).is_err() {
        return Err(Refusal::Layout);
    }
    known::rebuild_accepted(
        old,
        oldleap,
        oldsunstart,
        oldsun,
        oldmoonstart,
        oldmoon,
        leap,
        sunstart,
        sun,
        moonstart,
        moon,
        zone,
        span.first,
        span.count,
        file,
        years,
    )
}
