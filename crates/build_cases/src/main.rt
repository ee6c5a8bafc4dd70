// The build program's own code over each zone and file that are named: many cases in one run, each under its names. No contract can hold what a program prints, so
// these hold it.
#![tactic(auto)]

ghost use Rattle.std.specs.Prelude.{◌≤◌};

use build_run::inner::{open_argument, print_argument, zone_argument};
use std::io;
use std::rt::{Env, Files};

// Builds in the zone that argument i says, from the file that the next one names.
fn build_case(rt: &(impl Env + Files + Print + Eprint), i: usize) -> io::Result<()>
    requires { i ≤ 1000 }
{
    print!(rt; "# ")?;
    print_argument(rt, i)?;
    print!(rt; " ")?;
    print_argument(rt, i + 1)?;
    println!(rt)?;
    match open_argument(rt, i + 1) {
        Err(_) => println!(rt; "cannot be read"),
        Ok(mut input) => build_run::build_from(rt, &mut input, zone_argument(rt, i)),
    }
}

// Kept: groups of two arguments here and of four there, and what a group is stands in each program alone.
fn main(rt: HostRuntime) -> io::Result<()> {
    for i in (1..=1000).step_by(2) {
        if !outside::has_argument(&rt, i) {
            return Ok(());
        }
        build_case(&rt, i)?;
    }
    Ok(())
}
