// All of the listing program: from an input, which is standard input there, to standard output, in UTC+8.
#![tactic(auto)]

ghost use Rattle.std.specs.Prelude.{◌≡◌, length};

use std::io;
use std::io::Read;

// Room for the longest input, and one byte more, by which a longer one is known.
fn input_room() -> [u8; 65537]
    ensures { 65537 ≡ length result }
{
    [0; 65537]
}

// Room for many lines at once.
fn line_room() -> [u8; 65536]
    ensures { 65536 ≡ length result }
{
    [0; 65536]
}

// Prints the lines from `from` on that fit a buffer, and says how many; none when all is printed.
fn print_from(rt: &impl Print, input: &[u8], from: usize) -> io::Result<usize> {
    // Kept: fixed memory, no heap.
    let mut out = line_room();
    let part = listing::list_part(input, 480, from, &mut out);
    let bytes = part.bytes;
    rt.write_all(&out[..bytes])?;
    Ok(part.lines)
}

// A listing has far fewer lines than the turns that are taken here at most.
fn print_all(rt: &impl Print, input: &[u8]) -> io::Result<()> {
    let mut from = 0;
    while from < 1000000 {
        let lines = print_from(rt, input, from)?;
        if lines == 0 {
            return Ok(());
        }
        if 1000000 < lines {
            return Ok(());
        }
        from += lines;
    }
    Ok(())
}

// Lists an input.
// Kept: a room of its own size, and then its own printing; what is the same is `outside::read_full`.
pub fn list_from<I: Read>(rt: &impl Print, input: &mut I) -> io::Result<()> {
    // Kept: fixed memory, no heap.
    let mut bytes = input_room();
    let n = outside::read_full(input, &mut bytes)?;
    print_all(rt, &bytes[..n])
}
