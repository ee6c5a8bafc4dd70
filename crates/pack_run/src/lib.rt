// All of the program that packs decimal words: from an input, which is standard input there, to standard output.
#![tactic(auto)]

use packing::PackError;
use std::io;
use std::io::Read;

// Room for the longest text, 4 MiB, and one byte more, by which a longer one is known.
fn text_room() -> [u8; 4194305] {
    [0; 4194305]
}

// Room for 393,216 words: with the text it must stay below the stack of 8 MiB that a program has.
fn word_room() -> [u8; 3145728] {
    [0; 3145728]
}

// Prints the words of a text, packed in this room, or where the first stands that is none.
fn print_words(rt: &impl Print, text: &[u8], out: &mut [u8]) -> io::Result<()> {
    match packing::pack(text, out) {
        Ok(bytes) => rt.write_all(&out[..bytes]),
        Err(PackError::BadWord(bad)) => println!(rt; "R 13 {bad}"),
        Err(PackError::Room) => println!(rt; "R 12 more than 393216 words"),
    }
}

// Packs what is read. A text that fills its room is too long.
fn pack_in<I: Read>(
    rt: &impl Print,
    input: &mut I,
    text: &mut [u8],
    out: &mut [u8],
) -> io::Result<()> {
    let n = outside::read_full(input, text)?;
    if text.len() == n {
        return println!(rt; "R 13 more than 4194304 bytes");
    }
    print_words(rt, &text[..n], out)
}

// Arrays of this size are lent through references to arrays: their lengths are known by their types, where a proof would count them out.
fn lend<I: Read>(
    rt: &impl Print,
    input: &mut I,
    text: &mut [u8; 4194305],
    out: &mut [u8; 3145728],
) -> io::Result<()> {
    pack_in(rt, input, text, out)
}

// Packs the text of an input.
pub fn pack_from<I: Read>(rt: &impl Print, input: &mut I) -> io::Result<()> {
    let mut text = text_room();
    let mut out = word_room();
    lend(rt, input, &mut text, &mut out)
}
