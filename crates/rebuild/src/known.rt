// The old side: from accepted old inputs to the old days ahead, whether they give the old file, and then the new side.
ghost use Rattle.std.specs.Prelude.{◌≡◌, ◌≤◌, ◌<◌, length};
ghost use Rattle.whole.specs.Ranges.{Within};
ghost use Rattle.refusals.specs.Verdict.{paper};
ghost use Rattle.refusals.specs.Lent.{written_into};
ghost use Rattle.inputs.specs.Inputs.{inputs};
ghost use Rattle.inputs.specs.Known.{Known};
ghost use Rattle.build.specs.theory.Walk.{Begins, Walks};
ghost use Rattle.rebuilt.specs.Rebuild.{counted, new_bytes, kept_years};
ghost use Rattle.rebuild.specs.theory.Over.{rebuilt_over};

use super::new::rebuild_new;
use super::old::gives;
use build::inner::ahead::find_ahead;
use kept_or_made::inner::days::keep_days;
use rebuilt::Rebuilt;
use refusals::Refusal;
use series::Body;
use suis::inner::{Places, begin};
use times::Second;
use turns::inner::{TurnList, turns_of};

// By the days ahead under the old inputs: 13 unless these give the old file.
fn rebuild_found(
    old: &[u8],
    oldleap: &[i64],
    oldsunstart: Second,
    oldsun: &[i64],
    oldmoonstart: Second,
    oldmoon: &[i64],
    leap: &[i64],
    sunstart: Second,
    sun: &[i64],
    moonstart: Second,
    moon: &[i64],
    zone: i64,
    oldsuns: TurnList,
    oldmoons: TurnList,
    oldplaces: Places,
    first: i64,
    n: usize,
    oldsolstices: &[i64],
    oldnewmoons: &[i64],
    oldzhongqi: &[i64],
    file: &mut [u8],
    years: &mut [i64],
) -> Result<Rebuilt, Refusal>
    requires { Walks (inputs oldleap.now oldsunstart.0 oldsun.now oldmoonstart.0 oldmoon.now) zone oldsuns oldmoons oldplaces first n oldsolstices.now oldnewmoons.now oldzhongqi.now }
    ensures result_value { paper result ≡ counted (rebuilt_over (inputs oldleap.now oldsunstart.0 oldsun.now oldmoonstart.0 oldmoon.now) (inputs leap.now sunstart.0 sun.now moonstart.0 moon.now) zone old.now first n (length file.old) (length years.old)) }
    ensures file_after { file.new ≡ written_into (rebuilt_over (inputs oldleap.now oldsunstart.0 oldsun.now oldmoonstart.0 oldmoon.now) (inputs leap.now sunstart.0 sun.now moonstart.0 moon.now) zone old.now first n (length file.old) (length years.old)) new_bytes file.old }
    ensures years_after { years.new ≡ written_into (rebuilt_over (inputs oldleap.now oldsunstart.0 oldsun.now oldmoonstart.0 oldmoon.now) (inputs leap.now sunstart.0 sun.now moonstart.0 moon.now) zone old.now first n (length file.old) (length years.old)) kept_years years.old }
{
    if !gives(
        oldleap,
        oldsunstart,
        oldsun,
        oldmoonstart,
        oldmoon,
        zone,
        oldsuns,
        oldmoons,
        oldplaces,
        first,
        n,
        oldsolstices,
        oldnewmoons,
        oldzhongqi,
        old,
    ) {
        return Err(Refusal::Layout);
    }
    // The days of 128 suis, 28 words each, stored word by word where they stand (`build::inner::ahead::build_from` says why).
    let mut before: [i64; 3584] = [first; 3584];
    keep_days(
        oldleap,
        oldsunstart,
        oldsun,
        oldmoonstart,
        oldmoon,
        zone,
        oldsuns,
        oldmoons,
        oldplaces,
        first,
        n,
        oldsolstices,
        oldnewmoons,
        oldzhongqi,
        &mut before,
    );
    // where the old file's months stand: behind three counts, the leap entries and the suis
    let at = 12 + 8 * (oldleap.len() / 2) + 5 * n;
    rebuild_new(
        oldleap,
        oldsunstart,
        oldsun,
        oldmoonstart,
        oldmoon,
        leap,
        sunstart,
        sun,
        moonstart,
        moon,
        zone,
        oldsuns,
        oldmoons,
        oldplaces,
        first,
        n,
        oldsolstices,
        oldnewmoons,
        oldzhongqi,
        &before,
        old,
        at,
        file,
        years,
    )
}

// By where the first old sui begins.
fn rebuild_begun(
    old: &[u8],
    oldleap: &[i64],
    oldsunstart: Second,
    oldsun: &[i64],
    oldmoonstart: Second,
    oldmoon: &[i64],
    leap: &[i64],
    sunstart: Second,
    sun: &[i64],
    moonstart: Second,
    moon: &[i64],
    zone: i64,
    oldsuns: TurnList,
    oldmoons: TurnList,
    oldplaces: Places,
    first: i64,
    n: usize,
    file: &mut [u8],
    years: &mut [i64],
) -> Result<Rebuilt, Refusal>
    requires { Begins (inputs oldleap.now oldsunstart.0 oldsun.now oldmoonstart.0 oldmoon.now) zone oldsuns oldmoons oldplaces first n }
    ensures result_value { paper result ≡ counted (rebuilt_over (inputs oldleap.now oldsunstart.0 oldsun.now oldmoonstart.0 oldmoon.now) (inputs leap.now sunstart.0 sun.now moonstart.0 moon.now) zone old.now first n (length file.old) (length years.old)) }
    ensures file_after { file.new ≡ written_into (rebuilt_over (inputs oldleap.now oldsunstart.0 oldsun.now oldmoonstart.0 oldmoon.now) (inputs leap.now sunstart.0 sun.now moonstart.0 moon.now) zone old.now first n (length file.old) (length years.old)) new_bytes file.old }
    ensures years_after { years.new ≡ written_into (rebuilt_over (inputs oldleap.now oldsunstart.0 oldsun.now oldmoonstart.0 oldmoon.now) (inputs leap.now sunstart.0 sun.now moonstart.0 moon.now) zone old.now first n (length file.old) (length years.old)) kept_years years.old }
{
    // rooms for the days ahead of 128 suis, as `build::inner::ahead::build_at` has them
    // Kept: fixed memory, no heap.
    let mut solstices: [i64; 130] = [first; 130];
    let mut newmoons: [i64; 1666] = [first; 1666];
    let mut zhongqi: [i64; 1664] = [first; 1664];
    let found = find_ahead(
        oldleap,
        oldsunstart,
        oldsun,
        oldmoonstart,
        oldmoon,
        zone,
        oldsuns,
        oldmoons,
        oldplaces,
        first,
        n,
        &mut solstices,
        &mut newmoons,
        &mut zhongqi,
    );
    rebuild_found(
        old,
        oldleap,
        oldsunstart,
        oldsun,
        oldmoonstart,
        oldmoon,
        leap,
        sunstart,
        sun,
        moonstart,
        moon,
        zone,
        oldsuns,
        oldmoons,
        oldplaces,
        first,
        n,
        &solstices[..found.solstices],
        &newmoons[..found.newmoons],
        &zhongqi,
        file,
        years,
    )
}

// By accepted old inputs and the old file's years.
pub fn rebuild_accepted(
    old: &[u8],
    oldleap: &[i64],
    oldsunstart: Second,
    oldsun: &[i64],
    oldmoonstart: Second,
    oldmoon: &[i64],
    leap: &[i64],
    sunstart: Second,
    sun: &[i64],
    moonstart: Second,
    moon: &[i64],
    zone: i64,
    first: i64,
    n: usize,
    file: &mut [u8],
    years: &mut [i64],
) -> Result<Rebuilt, Refusal>
    requires known { Known (inputs oldleap.now oldsunstart.0 oldsun.now oldmoonstart.0 oldmoon.now) }
    requires within { Within 1000 zone }
    requires n_nonzero { 0 < n }
    requires n_bound { n ≤ 128 }
    ensures result_value { paper result ≡ counted (rebuilt_over (inputs oldleap.now oldsunstart.0 oldsun.now oldmoonstart.0 oldmoon.now) (inputs leap.now sunstart.0 sun.now moonstart.0 moon.now) zone old.now first n (length file.old) (length years.old)) }
    ensures file_after { file.new ≡ written_into (rebuilt_over (inputs oldleap.now oldsunstart.0 oldsun.now oldmoonstart.0 oldmoon.now) (inputs leap.now sunstart.0 sun.now moonstart.0 moon.now) zone old.now first n (length file.old) (length years.old)) new_bytes file.old }
    ensures years_after { years.new ≡ written_into (rebuilt_over (inputs oldleap.now oldsunstart.0 oldsun.now oldmoonstart.0 oldmoon.now) (inputs leap.now sunstart.0 sun.now moonstart.0 moon.now) zone old.now first n (length file.old) (length years.old)) kept_years years.old }
{
    let oldsuns = turns_of(Body::Sun, oldsunstart, oldsun);
    let oldmoons = turns_of(Body::Moon, oldmoonstart, oldmoon);
    let Ok(oldplaces) = begin(
        oldleap,
        oldsunstart,
        oldsun,
        oldmoonstart,
        oldmoon,
        zone,
        oldsuns,
        oldmoons,
        first,
    ) else {
        return Err(Refusal::Layout);
    };
    rebuild_begun(
        old,
        oldleap,
        oldsunstart,
        oldsun,
        oldmoonstart,
        oldmoon,
        leap,
        sunstart,
        sun,
        moonstart,
        moon,
        zone,
        oldsuns,
        oldmoons,
        oldplaces,
        first,
        n,
        file,
        years,
    )
}
