// What the programs that rebuild have in common: rooms, and how what was rebuilt is printed.
ghost use Rattle.std.specs.Prelude.{◌≡◌, length};

use build_run::inner::{file_room, print_series};
use refusals::Refusal;
use std::io;
use std::io::Write;

// Room for the years of 128 suis, and for their lines.
pub fn year_room() -> [i64; 128]
    ensures { 128 ≡ length result }
{
    [0; 128]
}

fn line_room() -> [u8; 1280]
    ensures { 1280 ≡ length result }
{
    [0; 1280]
}

// The lines of a file's suis, of which these years were kept.
pub fn print_lines(rt: &impl Print, file: &[u8], years: &[i64]) -> io::Result<()> {
    // Kept: fixed memory, no heap.
    let mut lines = line_room();
    match kept_years::list_years(file, years, &mut lines) {
        Err(r) => println!(rt; "R {r}"),
        Ok(n) => rt.write_all(&lines[..n]),
    }
}

// A refusal, and for 2 to 5 whose series of the new input it is.
pub fn print_refused(
    rt: &(impl Print + Eprint),
    r: Refusal,
    words: &[i64],
    bytes: usize,
    zone: i64,
) -> io::Result<()> {
    println!(rt; "R {r}")?;
    match r {
        Refusal::Shape | Refusal::Coefficient(_) | Refusal::TooSlow(_) | Refusal::Joint(_) => {
            print_series(rt, words, bytes, zone)
        }
        _ => Ok(()),
    }
}

// The new file: its lines, and its bytes.
fn print_new<W: Write>(rt: &impl Print, file: &[u8], years: &[i64], out: &mut W) -> io::Result<()> {
    print_lines(rt, file, years)?;
    out.write_all(file)
}

// By the words of two inputs, of so many bytes each.
pub fn print_rebuilt<W: Write>(
    rt: &(impl Print + Eprint),
    old: &[u8],
    oldwords: &[i64],
    oldbytes: usize,
    words: &[i64],
    bytes: usize,
    zone: i64,
    out: &mut W,
) -> io::Result<()> {
    // Kept: fixed memory, no heap.
    let mut file = file_room();
    // Kept: fixed memory, no heap.
    let mut years = year_room();
    match rebuilding::rebuild_taken(
        old, oldwords, oldbytes, words, bytes, zone, &mut file, &mut years,
    ) {
        Err(r) => print_refused(rt, r, words, bytes, zone),
        Ok(n) => print_new(rt, &file[..n.bytes], &years[..n.years], out),
    }
}
