// Packs decimal words, as text, into 64-bit little-endian words; or says in one line why not.
#![tactic(auto)]

use std::io;

fn main(rt: HostRuntime) -> io::Result<()> {
    pack_run::pack_from(&rt, &mut rt.stdin())
}
