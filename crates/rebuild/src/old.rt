// The old file: whether inputs give it, and its years.
ghost use Rattle.std.specs.Prelude.{◌≡◌, length};
ghost use Rattle.refusals.specs.Verdict.{answered, ◌then◌, paper};
ghost use Rattle.inputs.specs.Inputs.{inputs};
ghost use Rattle.almanac.specs.Layout.{file_of};
ghost use Rattle.built.specs.Build.{bytes_of_years};
ghost use Rattle.build.specs.theory.Walk.{Walks};
ghost use Rattle.rebuilt.specs.Rebuild.{is_file, most_bytes, years_in};

use alike::inner::same_bytes;
use build::inner::ahead::build_from;
use reader::check_file;
use rebuilt::Years;
use refusals::Refusal;
use suis::inner::Places;
use times::Second;
use turns::inner::TurnList;
use words::inner::signed4_at;

// Room for the largest file: 64 leap entries, 128 suis of 13 months.
fn file_room() -> [u8; 16140]
    ensures { 16140 ≡ length result }
{
    [0; 16140]
}

// Whether a file is the one that these inputs give for n years.
pub fn gives(
    leap: &[i64],
    sunstart: Second,
    sun: &[i64],
    moonstart: Second,
    moon: &[i64],
    zone: i64,
    suns: TurnList,
    moons: TurnList,
    places: Places,
    first: i64,
    n: usize,
    solstices: &[i64],
    newmoons: &[i64],
    zhongqi: &[i64],
    file: &[u8],
) -> bool
    requires { Walks (inputs leap.now sunstart.0 sun.now moonstart.0 moon.now) zone suns moons places first n solstices.now newmoons.now zhongqi.now }
    ensures { result ≡ is_file (bytes_of_years (inputs leap.now sunstart.0 sun.now moonstart.0 moon.now) zone first n most_bytes) file.now }
{
    // Kept: fixed memory, no heap.
    let mut room = file_room();
    let built = build_from(
        leap, sunstart, sun, moonstart, moon, zone, suns, moons, places, first, n, solstices,
        newmoons, zhongqi, &mut room,
    );
    match built {
        Err(_) => false,
        Ok(size) => same_bytes(&room[..size], file),
    }
}

// The years of a lawful file; 13 otherwise.
pub fn years_in(file: &[u8]) -> Result<Years, Refusal>
    ensures { paper result ≡ (file_of file.now then λ c. answered (years_in c)) }
{
    let n = check_file(file)?;
    Ok(Years {
        first: signed4_at(file, 4 + 8 * n.entries + 4),
        count: n.suis,
    })
}
