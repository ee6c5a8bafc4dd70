// The days of solstices, new moons and zhongqi that n suis need, found once and kept; and the records of the suis, kept until they are written.
ghost use Rattle.std.specs.Prelude.{◌≡◌, ◌+◌, ◌*◌, ◌≤◌, length, take};
ghost use Rattle.refusals.specs.Verdict.{paper};
ghost use Rattle.refusals.specs.Lent.{written_into};
ghost use Rattle.inputs.specs.Inputs.{inputs};
ghost use Rattle.almanac.specs.Answers.{bytes_counted, all_bytes};
ghost use Rattle.built.specs.Build.{bytes_of_years};
ghost use Rattle.build.specs.theory.Walk.{Begins, Walks};

use crate::years::put_years;
use refusals::Refusal;
use series::Body;
use suis::inner::{Places, days_ahead, fewer, zhongqi_ahead};
use times::Second;
use turns::inner::TurnList;
use writer::inner::write_lawful;

// Room for the records of 128 suis, two words each.
fn sui_words() -> [i64; 256]
    ensures { 256 ≡ length result }
{
    [0; 256]
}

// How many solstices and how many new moons were found.
#[derive(Clone, Copy)]
pub struct Reach {
    pub solstices: usize,
    pub newmoons: usize,
}

// The days ahead of n suis, from where the first begins: as many as they can need, or all that are left.
pub fn find_ahead(
    leap: &[i64],
    sunstart: Second,
    sun: &[i64],
    moonstart: Second,
    moon: &[i64],
    zone: i64,
    suns: TurnList,
    moons: TurnList,
    places: Places,
    first: i64,
    n: usize,
    solstices: &mut [i64],
    newmoons: &mut [i64],
    zhongqi: &mut [i64],
) -> Reach
    requires begins { Begins (inputs leap.now sunstart.0 sun.now moonstart.0 moon.now) zone suns moons places first n }
    requires n_in_bounds { n + 2 ≤ length solstices.old }
    requires n_in_bounds_2 { 13 * n + 2 ≤ length newmoons.old }
    requires n_in_bounds_3 { 13 * n ≤ length zhongqi.old }
    ensures solstices_bound { (result.solstices ≤ n + 2) × (result.newmoons ≤ 13 * n + 2) }
    ensures walks { Walks (inputs leap.now sunstart.0 sun.now moonstart.0 moon.now) zone suns moons places first n (take result.solstices solstices.new) (take result.newmoons newmoons.new) zhongqi.new }
{
    let s = fewer(suns.count, places.solstice, n + 2);
    days_ahead(
        leap,
        Body::Sun,
        sunstart,
        sun,
        zone,
        suns,
        places.solstice,
        s,
        solstices,
    );
    let m = fewer(moons.count, places.newmoon, 13 * n + 2);
    days_ahead(
        leap,
        Body::Moon,
        moonstart,
        moon,
        zone,
        moons,
        places.newmoon,
        m,
        newmoons,
    );
    let suis = fewer(s, 1, n);
    zhongqi_ahead(
        leap,
        sunstart,
        sun,
        zone,
        suns,
        places.solstice,
        suis,
        &solstices[..s],
        zhongqi,
    );
    Reach {
        solstices: s,
        newmoons: m,
    }
}

// The file, by the days ahead.
pub fn build_from(
    leap: &[i64],
    sunstart: Second,
    sun: &[i64],
    moonstart: Second,
    moon: &[i64],
    zone: i64,
    suns: TurnList,
    moons: TurnList,
    places: Places,
    first: i64,
    n: usize,
    solstices: &[i64],
    newmoons: &[i64],
    zhongqi: &[i64],
    file: &mut [u8],
) -> Result<usize, Refusal>
    requires { Walks (inputs leap.now sunstart.0 sun.now moonstart.0 moon.now) zone suns moons places first n solstices.now newmoons.now zhongqi.now }
    ensures result_value { paper result ≡ bytes_counted (bytes_of_years (inputs leap.now sunstart.0 sun.now moonstart.0 moon.now) zone first n (length file.old)) }
    ensures file_after { file.new ≡ written_into (bytes_of_years (inputs leap.now sunstart.0 sun.now moonstart.0 moon.now) zone first n (length file.old)) all_bytes file.old }
{
    // Kept: fixed memory, no heap.
    let mut suis = sui_words();
    // Three words a month. A number that the compiler does not know is stored word by word, where zeros, or an array handed over, would be a call of the C library.
    // Kept: fixed memory, no heap.
    let mut months: [i64; 4992] = [first; 4992];
    let count = put_years(
        leap,
        sunstart,
        sun,
        moonstart,
        moon,
        zone,
        suns,
        moons,
        places,
        first,
        n,
        solstices,
        newmoons,
        zhongqi,
        &mut suis,
        &mut months,
    )?;
    write_lawful(leap, &suis[..2 * n], &months[..3 * count], file)
}

// The file, by where the first sui begins.
pub fn build_at(
    leap: &[i64],
    sunstart: Second,
    sun: &[i64],
    moonstart: Second,
    moon: &[i64],
    zone: i64,
    suns: TurnList,
    moons: TurnList,
    places: Places,
    first: i64,
    n: usize,
    file: &mut [u8],
) -> Result<usize, Refusal>
    requires { Begins (inputs leap.now sunstart.0 sun.now moonstart.0 moon.now) zone suns moons places first n }
    ensures result_value { paper result ≡ bytes_counted (bytes_of_years (inputs leap.now sunstart.0 sun.now moonstart.0 moon.now) zone first n (length file.old)) }
    ensures file_after { file.new ≡ written_into (bytes_of_years (inputs leap.now sunstart.0 sun.now moonstart.0 moon.now) zone first n (length file.old)) all_bytes file.old }
{
    // Rooms for the days ahead of 128 suis: a solstice each and two more, thirteen new moons each and two more, thirteen zhongqi each. They are stored word by word where
    // they stand (`build_from` says why).
    // Kept: fixed memory, no heap.
    let mut solstices: [i64; 130] = [first; 130];
    let mut newmoons: [i64; 1666] = [first; 1666];
    let mut zhongqi: [i64; 1664] = [first; 1664];
    let found = find_ahead(
        leap,
        sunstart,
        sun,
        moonstart,
        moon,
        zone,
        suns,
        moons,
        places,
        first,
        n,
        &mut solstices,
        &mut newmoons,
        &mut zhongqi,
    );
    build_from(
        leap,
        sunstart,
        sun,
        moonstart,
        moon,
        zone,
        suns,
        moons,
        places,
        first,
        n,
        &solstices[..found.solstices],
        &newmoons[..found.newmoons],
        &zhongqi,
        file,
    )
}
