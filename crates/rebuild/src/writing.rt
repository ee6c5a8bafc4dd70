// The new file and the years, by the days ahead: everything is judged before the first byte or year is written.
ghost use Rattle.std.specs.Prelude.{◌≡◌, length};
ghost use Rattle.refusals.specs.Verdict.{paper};
ghost use Rattle.refusals.specs.Lent.{written_into};
ghost use Rattle.inputs.specs.Inputs.{inputs};
ghost use Rattle.built.specs.Build.{bytes_of_years};
ghost use Rattle.build.specs.theory.Walk.{Walks};
ghost use Rattle.rebuilt.specs.Rebuild.{new_file_by, counted, new_bytes, kept_years};
ghost use Rattle.kept_or_made.specs.Again.{listed_again, Copies};

use kept_or_made::inner::walk::put_years_again;
use new_file::inner::write_both;
use rebuilt::Rebuilt;
use refusals::Refusal;
use suis::inner::Places;
use times::Second;
use turns::inner::TurnList;

// Room for the records of 128 suis, two words each, and for their years.
fn sui_words() -> [i64; 256]
    ensures { 256 ≡ length result }
{
    [0; 256]
}

fn year_words() -> [i64; 128]
    ensures { 128 ≡ length result }
{
    [0; 128]
}

// The new file and the years of the suis that are kept.
pub fn rebuild_from(
    leap: &[i64],
    sunstart: Second,
    sun: &[i64],
    moonstart: Second,
    moon: &[i64],
    zone: i64,
    suns: TurnList,
    moons: TurnList,
    places: Places,
    first: i64,
    n: usize,
    solstices: &[i64],
    newmoons: &[i64],
    zhongqi: &[i64],
    before: &[i64],
    old: &[u8],
    at: usize,
    file: &mut [u8],
    years: &mut [i64],
) -> Result<Rebuilt, Refusal>
    requires walks { Walks (inputs leap.now sunstart.0 sun.now moonstart.0 moon.now) zone suns moons places first n solstices.now newmoons.now zhongqi.now }
    requires copies { Copies (inputs leap.now sunstart.0 sun.now moonstart.0 moon.now) zone first n before.now old.now at }
    ensures result_value { paper result ≡ counted (new_file_by (bytes_of_years (inputs leap.now sunstart.0 sun.now moonstart.0 moon.now) zone first n (length file.old)) (listed_again (inputs leap.now sunstart.0 sun.now moonstart.0 moon.now) zone first before.now n) (length years.old)) }
    ensures file_after { file.new ≡ written_into (new_file_by (bytes_of_years (inputs leap.now sunstart.0 sun.now moonstart.0 moon.now) zone first n (length file.old)) (listed_again (inputs leap.now sunstart.0 sun.now moonstart.0 moon.now) zone first before.now n) (length years.old)) new_bytes file.old }
    ensures years_after { years.new ≡ written_into (new_file_by (bytes_of_years (inputs leap.now sunstart.0 sun.now moonstart.0 moon.now) zone first n (length file.old)) (listed_again (inputs leap.now sunstart.0 sun.now moonstart.0 moon.now) zone first before.now n) (length years.old)) kept_years years.old }
{
    // Kept: fixed memory, no heap.
    let mut suis = sui_words();
    // Three words a month, stored word by word where they stand (`build::inner::ahead::build_from` says why).
    // Kept: fixed memory, no heap.
    let mut months: [i64; 4992] = [first; 4992];
    // Kept: fixed memory, no heap.
    let mut kept = year_words();
    let put = put_years_again(
        leap,
        sunstart,
        sun,
        moonstart,
        moon,
        zone,
        suns,
        moons,
        places,
        first,
        n,
        solstices,
        newmoons,
        zhongqi,
        before,
        old,
        at,
        &mut suis,
        &mut months,
        &mut kept,
    )?;
    write_both(
        leap,
        &suis[..2 * n],
        &months[..3 * put.months],
        &kept[..put.years],
        file,
        years,
    )
}
