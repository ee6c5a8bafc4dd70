// The new side: the new inputs are judged by what changed, their days ahead are found where they can have moved, and the file is written.
ghost use Rattle.std.specs.Prelude.{◌≡◌, length};
ghost use Rattle.refusals.specs.Verdict.{paper};
ghost use Rattle.refusals.specs.Lent.{written_into};
ghost use Rattle.inputs.specs.Inputs.{inputs};
ghost use Rattle.corrected.specs.Shared.{Shared};
ghost use Rattle.built.specs.Build.{bytes_of_years};
ghost use Rattle.build.specs.theory.Walk.{Begins, Walks};
ghost use Rattle.rebuilt.specs.Rebuild.{new_file_by, counted, new_bytes, kept_years};
ghost use Rattle.kept_or_made.specs.Again.{listed_again, Copies};
ghost use Rattle.rebuild.specs.theory.Over.{fresh_bytes};

use super::writing::rebuild_from;
use corrected::inner::{Changed, changed_segments, judge_again};
use found_again::inner::find_again;
use rebuilt::Rebuilt;
use refusals::Refusal;
use series::Body;
use suis::inner::{Places, begin};
use times::Second;
use turns::inner::{TurnList, turns_of};

// The new file, by where the first sui begins under old and new inputs.
fn rebuild_at(
    oldleap: &[i64],
    oldsunstart: Second,
    oldsun: &[i64],
    oldmoonstart: Second,
    oldmoon: &[i64],
    leap: &[i64],
    sunstart: Second,
    sun: &[i64],
    moonstart: Second,
    moon: &[i64],
    zone: i64,
    oldsuns: TurnList,
    oldmoons: TurnList,
    oldplaces: Places,
    suns: TurnList,
    moons: TurnList,
    places: Places,
    first: i64,
    n: usize,
    sunpart: Changed,
    moonpart: Changed,
    oldsolstices: &[i64],
    oldnewmoons: &[i64],
    oldzhongqi: &[i64],
    before: &[i64],
    old: &[u8],
    at: usize,
    file: &mut [u8],
    years: &mut [i64],
) -> Result<Rebuilt, Refusal>
    requires walks { Walks (inputs oldleap.now oldsunstart.0 oldsun.now oldmoonstart.0 oldmoon.now) zone oldsuns oldmoons oldplaces first n oldsolstices.now oldnewmoons.now oldzhongqi.now }
    requires begins { Begins (inputs leap.now sunstart.0 sun.now moonstart.0 moon.now) zone suns moons places first n }
    requires shared { Shared oldsun.now sun.now sunpart.first sunpart.end }
    requires shared_2 { Shared oldmoon.now moon.now moonpart.first moonpart.end }
    requires copies { Copies (inputs leap.now sunstart.0 sun.now moonstart.0 moon.now) zone first n before.now old.now at }
    ensures result_value { paper result ≡ counted (new_file_by (bytes_of_years (inputs leap.now sunstart.0 sun.now moonstart.0 moon.now) zone first n (length file.old)) (listed_again (inputs leap.now sunstart.0 sun.now moonstart.0 moon.now) zone first before.now n) (length years.old)) }
    ensures file_after { file.new ≡ written_into (new_file_by (bytes_of_years (inputs leap.now sunstart.0 sun.now moonstart.0 moon.now) zone first n (length file.old)) (listed_again (inputs leap.now sunstart.0 sun.now moonstart.0 moon.now) zone first before.now n) (length years.old)) new_bytes file.old }
    ensures years_after { years.new ≡ written_into (new_file_by (bytes_of_years (inputs leap.now sunstart.0 sun.now moonstart.0 moon.now) zone first n (length file.old)) (listed_again (inputs leap.now sunstart.0 sun.now moonstart.0 moon.now) zone first before.now n) (length years.old)) kept_years years.old }
{
    // rooms for the days ahead of 128 suis, as `build::inner::ahead::build_at` has them
    // Kept: fixed memory, no heap.
    let mut solstices: [i64; 130] = [first; 130];
    let mut newmoons: [i64; 1666] = [first; 1666];
    let mut zhongqi: [i64; 1664] = [first; 1664];
    let found = find_again(
        oldleap,
        oldsunstart,
        oldsun,
        oldmoonstart,
        oldmoon,
        leap,
        sunstart,
        sun,
        moonstart,
        moon,
        zone,
        oldsuns,
        oldmoons,
        oldplaces,
        suns,
        moons,
        places,
        first,
        n,
        sunpart,
        moonpart,
        oldsolstices,
        oldnewmoons,
        oldzhongqi,
        &mut solstices,
        &mut newmoons,
        &mut zhongqi,
    );
    rebuild_from(
        leap,
        sunstart,
        sun,
        moonstart,
        moon,
        zone,
        suns,
        moons,
        places,
        first,
        n,
        &solstices[..found.solstices],
        &newmoons[..found.newmoons],
        &zhongqi,
        before,
        old,
        at,
        file,
        years,
    )
}

// The new file, once the old inputs gave the old one: the new inputs are judged, each sui in year order, then the room.
pub fn rebuild_new(
    oldleap: &[i64],
    oldsunstart: Second,
    oldsun: &[i64],
    oldmoonstart: Second,
    oldmoon: &[i64],
    leap: &[i64],
    sunstart: Second,
    sun: &[i64],
    moonstart: Second,
    moon: &[i64],
    zone: i64,
    oldsuns: TurnList,
    oldmoons: TurnList,
    oldplaces: Places,
    first: i64,
    n: usize,
    oldsolstices: &[i64],
    oldnewmoons: &[i64],
    oldzhongqi: &[i64],
    before: &[i64],
    old: &[u8],
    at: usize,
    file: &mut [u8],
    years: &mut [i64],
) -> Result<Rebuilt, Refusal>
    requires walks { Walks (inputs oldleap.now oldsunstart.0 oldsun.now oldmoonstart.0 oldmoon.now) zone oldsuns oldmoons oldplaces first n oldsolstices.now oldnewmoons.now oldzhongqi.now }
    requires copies { Copies (inputs leap.now sunstart.0 sun.now moonstart.0 moon.now) zone first n before.now old.now at }
    ensures result_value { paper result ≡ counted (new_file_by (fresh_bytes (inputs leap.now sunstart.0 sun.now moonstart.0 moon.now) zone first n (length file.old)) (listed_again (inputs leap.now sunstart.0 sun.now moonstart.0 moon.now) zone first before.now n) (length years.old)) }
    ensures file_after { file.new ≡ written_into (new_file_by (fresh_bytes (inputs leap.now sunstart.0 sun.now moonstart.0 moon.now) zone first n (length file.old)) (listed_again (inputs leap.now sunstart.0 sun.now moonstart.0 moon.now) zone first before.now n) (length years.old)) new_bytes file.old }
    ensures years_after { years.new ≡ written_into (new_file_by (fresh_bytes (inputs leap.now sunstart.0 sun.now moonstart.0 moon.now) zone first n (length file.old)) (listed_again (inputs leap.now sunstart.0 sun.now moonstart.0 moon.now) zone first before.now n) (length years.old)) kept_years years.old }
{
    let sunpart = changed_segments(oldsun, sun);
    let moonpart = changed_segments(oldmoon, moon);
    judge_again(
        oldsunstart,
        oldsun,
        oldmoonstart,
        oldmoon,
        leap,
        sunstart,
        sun,
        moonstart,
        moon,
        sunpart,
        moonpart,
    )?;
    let suns = turns_of(Body::Sun, sunstart, sun);
    let moons = turns_of(Body::Moon, moonstart, moon);
    let places = begin(
        leap, sunstart, sun, moonstart, moon, zone, suns, moons, first,
    )?;
    rebuild_at(
        oldleap,
        oldsunstart,
        oldsun,
        oldmoonstart,
        oldmoon,
        leap,
        sunstart,
        sun,
        moonstart,
        moon,
        zone,
        oldsuns,
        oldmoons,
        oldplaces,
        suns,
        moons,
        places,
        first,
        n,
        sunpart,
        moonpart,
        oldsolstices,
        oldnewmoons,
        oldzhongqi,
        before,
        old,
        at,
        file,
        years,
    )
}
