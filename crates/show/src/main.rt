// Shows an almanac file to people: a line a month, or `R 13` for bytes that are none.
#![tactic(auto)]

use std::io;

fn main(rt: HostRuntime) -> io::Result<()> {
    show_run::show_from(&rt, &mut rt.stdin())
}
