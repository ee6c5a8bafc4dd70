// The days of suis as words, 28 for each: how many months it has, fourteen places for its new-moon days, its thirteen zhongqi days.
ghost use Rattle.std.specs.Prelude.{◌≡◌, ◌+◌, ◌*◌, ◌≤◌, length};
ghost use Rattle.whole.specs.Lists.{placed};
ghost use Rattle.inputs.specs.Inputs.{inputs};
ghost use Rattle.build.specs.theory.Walk.{Walks};
ghost use Rattle.rebuilt.specs.Rebuild.{days_words};
ghost use Rattle.kept_or_made.specs.OldDays.{AllFound, days_of_years};

use months::SuiDays;
use suis::inner::{Places, days_after};
use times::Second;
use turns::inner::TurnList;
use whole::inner::{add, put_words, signed};

// The days of a sui.
pub fn days_words(days: SuiDays) -> [i64; 28]
    requires months_bound { days.months ≤ 13 }
    requires moons_len { length days.moons ≡ 14 }
    requires zhongqi_len { length days.zhongqi ≡ 13 }
    ensures { result ≡ days_words days }
{
    let mut words: [i64; 28] = [0; 28];
    words[0] = signed(days.months);
    let moons = days.moons;
    put_words(&moons, &mut words, 1);
    let zhongqi = days.zhongqi;
    put_words(&zhongqi, &mut words, 15);
    words
}

// The days of n suis that are all found, one behind the other.
pub fn keep_days(
    leap: &[i64],
    sunstart: Second,
    sun: &[i64],
    moonstart: Second,
    moon: &[i64],
    zone: i64,
    suns: TurnList,
    moons: TurnList,
    places: Places,
    first: i64,
    n: usize,
    solstices: &[i64],
    newmoons: &[i64],
    zhongqi: &[i64],
    out: &mut [i64],
)
    requires walks { Walks (inputs leap.now sunstart.0 sun.now moonstart.0 moon.now) zone suns moons places first n solstices.now newmoons.now zhongqi.now }
    requires all_found { AllFound (inputs leap.now sunstart.0 sun.now moonstart.0 moon.now) zone first n }
    requires n_in_bounds { 28 * n ≤ length out.old }
    ensures { out.new ≡ placed 0 (days_of_years (inputs leap.now sunstart.0 sun.now moonstart.0 moon.now) zone first n) out.old }
{
    let place = places.solstice;
    let mut from: usize = 0;
    for j in 0..n {
        let year = add(first, signed(j));
        // never refused: all are found
        let days = days_after(
            leap,
            sunstart,
            sun,
            moonstart,
            moon,
            zone,
            suns,
            moons,
            year,
            place + j,
            j,
            from,
            solstices,
            newmoons,
            zhongqi,
        )
        .unwrap();
        let words = days_words(days);
        put_words(&words, out, 28 * j);
        from += days.months;
    }
}
