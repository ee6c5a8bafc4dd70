// All of the rebuild program: from an old almanac file, the input that it was built from and a new input to standard output: a line for each sui, its
// year and `kept` or `made`, or the line of a refusal, as the build program prints it. The new file's bytes go to an output of their own. All is by one zone.
#![tactic(auto)]

ghost use Rattle.std.specs.Prelude.{◌≡◌, length};

use build_run::inner::{open_argument, take_all, word_room};
use inner::print_rebuilt;
use std::io;
use std::io::{Read, Write};
use std::rt::{Env, Files};

pub mod inner;

// Room for the largest file and one byte more, by which a longer one is seen.
fn old_room() -> [u8; 16141]
    ensures { 16141 ≡ length result }
{
    [0; 16141]
}

// Rebuilds the file that is one input by the words of two others.
pub fn rebuild_from<I: Read, W: Write>(
    rt: &(impl Print + Eprint),
    old: &mut I,
    oldinput: &mut I,
    input: &mut I,
    zone: i64,
    out: &mut W,
) -> io::Result<()> {
    // Kept: fixed memory, no heap.
    let mut file = old_room();
    let n = outside::read_full(old, &mut file)?;
    let mut oldwords = word_room();
    let oldbytes = take_all(oldinput, &mut oldwords)?;
    let mut words = word_room();
    let bytes = take_all(input, &mut words)?;
    print_rebuilt(
        rt,
        &file[..n],
        &oldwords,
        oldbytes,
        &words,
        bytes,
        zone,
        out,
    )
}

// The same by the names of three files, which are these arguments.
pub fn rebuild_named<W: Write>(
    rt: &(impl Env + Files + Print + Eprint),
    old: usize,
    oldinput: usize,
    input: usize,
    zone: i64,
    out: &mut W,
) -> io::Result<()> {
    let first = open_argument(rt, old);
    let second = open_argument(rt, oldinput);
    let third = open_argument(rt, input);
    match (first, second, third) {
        (Ok(mut first), Ok(mut second), Ok(mut third)) => {
            rebuild_from(rt, &mut first, &mut second, &mut third, zone, out)
        }
        _ => println!(rt; "cannot be read"),
    }
}
