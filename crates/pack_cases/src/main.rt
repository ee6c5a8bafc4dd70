// The program `pack`, its own code, over each text that is named: many cases in one run, each under its name. No contract can hold what a program
// prints, so these hold it.
#![tactic(auto)]

use std::io;

fn main(rt: HostRuntime) -> io::Result<()> {
    outside::inner::each_file(&rt, |rt, text| {
        pack_run::pack_from(rt, text)?;
        println!(rt)
    })
}
