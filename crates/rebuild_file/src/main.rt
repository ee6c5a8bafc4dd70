// The rebuild program: three arguments name the old almanac file, its input and the new input, and a fourth may say the zone in minutes; without it that is UTC+8. The
// new file's bytes go to descriptor 3, which whoever starts it opens.
#![tactic(auto)]

use outside::third::Third;
use std::io;

fn main(rt: HostRuntime) -> io::Result<()> {
    let zone = build_run::inner::zone_argument(&rt, 4);
    rebuild_run::rebuild_named(&rt, 1, 2, 3, zone, &mut Third::new(&rt))
}
