// All of the program that shows an almanac file: from an input, which is standard input there, to standard output.
#![tactic(auto)]

ghost use Rattle.std.specs.Prelude.{◌≡◌, length};

use std::io;
use std::io::Read;

// Room for the largest lawful file, 16,140 bytes, and one byte more, by which a longer one is known.
fn file_room() -> [u8; 16141]
    ensures { 16141 ≡ length result }
{
    [0; 16141]
}

// Room for the longest text: a header and 1,664 months.
fn text_room() -> [u8; 73260]
    ensures { 73260 ≡ length result }
{
    [0; 73260]
}

// Prints the text of these bytes, or R and the number of the refusal.
fn print_text(rt: &impl Print, file: &[u8]) -> io::Result<()> {
    // Kept: fixed memory, no heap.
    let mut out = text_room();
    match showing::show(file, &mut out) {
        Ok(bytes) => rt.write_all(&out[..bytes]),
        Err(r) => println!(rt; "R {r}"),
    }
}

// Shows the file that an input is.
// Kept: a room of its own size, and then its own printing; what is the same is `outside::read_full`.
pub fn show_from<I: Read>(rt: &impl Print, input: &mut I) -> io::Result<()> {
    // Kept: fixed memory, no heap.
    let mut file = file_room();
    let n = outside::read_full(input, &mut file)?;
    print_text(rt, &file[..n])
}
