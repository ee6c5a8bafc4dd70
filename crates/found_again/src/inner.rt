// For the rebuild of a file: the days ahead of n suis under corrected inputs. The zone is in minutes.
ghost use Rattle.std.specs.Prelude.{◌≡◌, ◌+◌, ◌*◌, ◌≤◌, length, take};
ghost use Rattle.series.specs.declared.Body.TheVariants.{Sun, Moon};
ghost use Rattle.series.specs.Series.{series};
ghost use Rattle.inputs.specs.Inputs.{inputs};
ghost use Rattle.turns.specs.Listed.{turn_index_of};
ghost use Rattle.corrected.specs.Shared.{Shared};
ghost use Rattle.build.specs.theory.Walk.{Begins, Walks};
ghost use Rattle.found_again.specs.Begin.{begin_alike};

use alike::inner::same_words;
use build::inner::ahead::{Reach, find_ahead};
use corrected::inner::{Changed, moved_marks};
use kept_days::inner::{days_again, zhongqi_again};
use series::Body;
use suis::inner::{Places, fewer};
use times::Second;
use turns::inner::{TurnList, turn_index};

// The days ahead by those from before, where leap table and starts are the same and the first turns have the same indices.
fn find_by(
    leap: &[i64],
    sunstart: Second,
    oldsun: &[i64],
    sun: &[i64],
    moonstart: Second,
    oldmoon: &[i64],
    moon: &[i64],
    zone: i64,
    oldsuns: TurnList,
    oldmoons: TurnList,
    oldplaces: Places,
    suns: TurnList,
    moons: TurnList,
    places: Places,
    first: i64,
    n: usize,
    sunpart: Changed,
    moonpart: Changed,
    oldsolstices: &[i64],
    oldnewmoons: &[i64],
    oldzhongqi: &[i64],
    solstices: &mut [i64],
    newmoons: &mut [i64],
    zhongqi: &mut [i64],
) -> Reach
    requires walks { Walks (inputs leap.now sunstart.0 oldsun.now moonstart.0 oldmoon.now) zone oldsuns oldmoons oldplaces first n oldsolstices.now oldnewmoons.now oldzhongqi.now }
    requires begins { Begins (inputs leap.now sunstart.0 sun.now moonstart.0 moon.now) zone suns moons places first n }
    requires shared { Shared oldsun.now sun.now sunpart.first sunpart.end }
    requires shared_2 { Shared oldmoon.now moon.now moonpart.first moonpart.end }
    requires solstice_value { turn_index_of (series Sun sunstart.0 oldsun.now) oldplaces.solstice ≡ turn_index_of (series Sun sunstart.0 sun.now) places.solstice }
    requires newmoon_after { turn_index_of (series Moon moonstart.0 oldmoon.now) oldplaces.newmoon ≡ turn_index_of (series Moon moonstart.0 moon.now) places.newmoon }
    requires n_in_bounds { n + 2 ≤ length solstices.old }
    requires n_in_bounds_2 { 13 * n + 2 ≤ length newmoons.old }
    requires n_in_bounds_3 { 13 * n ≤ length zhongqi.old }
    ensures solstices_bound { (result.solstices ≤ n + 2) × (result.newmoons ≤ 13 * n + 2) }
    ensures walks_2 { Walks (inputs leap.now sunstart.0 sun.now moonstart.0 moon.now) zone suns moons places first n (take result.solstices solstices.new) (take result.newmoons newmoons.new) zhongqi.new }
{
    let sunmoved = moved_marks(Body::Sun, sunstart, oldsun, sun, sunpart);
    let moonmoved = moved_marks(Body::Moon, moonstart, oldmoon, moon, moonpart);
    let s = fewer(suns.count, places.solstice, n + 2);
    days_again(
        leap,
        Body::Sun,
        sunstart,
        sun,
        zone,
        suns,
        places.solstice,
        s,
        sunmoved.low,
        sunmoved.high,
        oldsolstices,
        solstices,
    );
    let m = fewer(moons.count, places.newmoon, 13 * n + 2);
    days_again(
        leap,
        Body::Moon,
        moonstart,
        moon,
        zone,
        moons,
        places.newmoon,
        m,
        moonmoved.low,
        moonmoved.high,
        oldnewmoons,
        newmoons,
    );
    let suis = fewer(s, 1, n);
    zhongqi_again(
        leap,
        sunstart,
        sun,
        zone,
        suns,
        places.solstice,
        suis,
        &solstices[..s],
        sunmoved.low,
        sunmoved.high,
        oldzhongqi,
        zhongqi,
    );
    Reach {
        solstices: s,
        newmoons: m,
    }
}

// Whether leap tables are the same words, and so are the numbers by which two walks begin.
fn begin_alike(oldleap: &[i64], leap: &[i64], old: &[i64], new: &[i64]) -> bool
    ensures { result ≡ begin_alike oldleap.now leap.now old.now new.now }
{
    if !same_words(oldleap, leap) {
        return false;
    }
    same_words(old, new)
}

// The days ahead of n suis under new inputs, where those under the old inputs are known.
pub fn find_again(
    oldleap: &[i64],
    oldsunstart: Second,
    oldsun: &[i64],
    oldmoonstart: Second,
    oldmoon: &[i64],
    leap: &[i64],
    sunstart: Second,
    sun: &[i64],
    moonstart: Second,
    moon: &[i64],
    zone: i64,
    oldsuns: TurnList,
    oldmoons: TurnList,
    oldplaces: Places,
    suns: TurnList,
    moons: TurnList,
    places: Places,
    first: i64,
    n: usize,
    sunpart: Changed,
    moonpart: Changed,
    oldsolstices: &[i64],
    oldnewmoons: &[i64],
    oldzhongqi: &[i64],
    solstices: &mut [i64],
    newmoons: &mut [i64],
    zhongqi: &mut [i64],
) -> Reach
    requires walks { Walks (inputs oldleap.now oldsunstart.0 oldsun.now oldmoonstart.0 oldmoon.now) zone oldsuns oldmoons oldplaces first n oldsolstices.now oldnewmoons.now oldzhongqi.now }
    requires begins { Begins (inputs leap.now sunstart.0 sun.now moonstart.0 moon.now) zone suns moons places first n }
    requires shared { Shared oldsun.now sun.now sunpart.first sunpart.end }
    requires shared_2 { Shared oldmoon.now moon.now moonpart.first moonpart.end }
    requires n_in_bounds { n + 2 ≤ length solstices.old }
    requires n_in_bounds_2 { 13 * n + 2 ≤ length newmoons.old }
    requires n_in_bounds_3 { 13 * n ≤ length zhongqi.old }
    ensures solstices_bound { (result.solstices ≤ n + 2) × (result.newmoons ≤ 13 * n + 2) }
    ensures walks_2 { Walks (inputs leap.now sunstart.0 sun.now moonstart.0 moon.now) zone suns moons places first n (take result.solstices solstices.new) (take result.newmoons newmoons.new) zhongqi.new }
{
    let oldsolstice = turn_index(Body::Sun, oldsuns.first, oldplaces.solstice);
    let oldnewmoon = turn_index(Body::Moon, oldmoons.first, oldplaces.newmoon);
    let solstice = turn_index(Body::Sun, suns.first, places.solstice);
    let newmoon = turn_index(Body::Moon, moons.first, places.newmoon);
    let old: [i64; 4] = [oldsunstart.0, oldmoonstart.0, oldsolstice, oldnewmoon];
    let new: [i64; 4] = [sunstart.0, moonstart.0, solstice, newmoon];
    if begin_alike(oldleap, leap, &old, &new) {
        return find_by(
            leap,
            sunstart,
            oldsun,
            sun,
            moonstart,
            oldmoon,
            moon,
            zone,
            oldsuns,
            oldmoons,
            oldplaces,
            suns,
            moons,
            places,
            first,
            n,
            sunpart,
            moonpart,
            oldsolstices,
            oldnewmoons,
            oldzhongqi,
            solstices,
            newmoons,
            zhongqi,
        );
    }
    find_ahead(
        leap, sunstart, sun, moonstart, moon, zone, suns, moons, places, first, n, solstices,
        newmoons, zhongqi,
    )
}
