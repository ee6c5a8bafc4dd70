// The program `show`, its own code, over each file that is named: many cases in one run, each under its name. No contract can hold what a program
// prints, so these hold it.
#![tactic(auto)]

use std::io;

fn main(rt: HostRuntime) -> io::Result<()> {
    outside::inner::each_file(&rt, |rt, file| show_run::show_from(rt, file))
}
