// The rebuild program's own code over each zone and three files that are named: many cases in one run, each under its names, with the new file's bytes behind the
// lines. No contract can hold what a program prints, so these hold it.
#![tactic(auto)]

ghost use Rattle.std.specs.Prelude.{◌≤◌};

use build_run::inner::{print_argument, zone_argument};
use std::io;
use std::rt::{Env, Files};

// Rebuilds in the zone that argument i says, by the three files that the next ones name.
fn rebuild_case(rt: &(impl Env + Files + Print + Eprint), i: usize) -> io::Result<()>
    requires { i ≤ 1000 }
{
    print!(rt; "# ")?;
    print_argument(rt, i)?;
    print!(rt; " ")?;
    print_argument(rt, i + 1)?;
    print!(rt; " ")?;
    print_argument(rt, i + 2)?;
    print!(rt; " ")?;
    print_argument(rt, i + 3)?;
    println!(rt)?;
    let zone = zone_argument(rt, i);
    rebuild_run::rebuild_named(rt, i + 1, i + 2, i + 3, zone, &mut io::writer(rt))
}

// Kept: groups of two arguments there and of four here, and what a group is stands in each program alone.
fn main(rt: HostRuntime) -> io::Result<()> {
    for i in (1..=1000).step_by(4) {
        if !outside::has_argument(&rt, i) {
            return Ok(());
        }
        rebuild_case(&rt, i)?;
    }
    Ok(())
}
