// The build program: reads words from standard input, writes the almanac file to standard output. Its argument is the zone in minutes; without one it is UTC+8.
#![tactic(auto)]

use std::io;

fn main(rt: HostRuntime) -> io::Result<()> {
    let zone = build_run::inner::zone_argument(&rt, 1);
    build_run::build_from(&rt, &mut rt.stdin(), zone)
}
