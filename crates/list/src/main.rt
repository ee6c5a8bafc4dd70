// The listing program (document 01, "The listing program").
#![tactic(auto)]

use std::io;

fn main(rt: HostRuntime) -> io::Result<()> {
    list_run::list_from(&rt, &mut rt.stdin())
}
