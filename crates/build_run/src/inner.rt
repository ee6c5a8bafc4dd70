// What the programs that build have in common: rooms for an input and a file, arguments, an input taken piece by piece, and how a refusal is printed.
ghost use Rattle.std.specs.Prelude.{◌≡◌, ℕ, ◌≤◌, IfErr, IfOk, length};
ghost use Rattle.pieces.specs.Pieces.{TakenNext, TakenWhole, Taken};

pub use outside::{open_argument, print_argument};
use series::Body;
use std::io;
use std::io::Read;
use std::rt::Env;

// Room for all the words of the longest input: 64 leap entries, 2,000 segments of the Sun, 16,000 of the Moon.
pub fn word_room() -> [i64; 252135]
    ensures { 252135 ≡ length result }
{
    [0; 252135]
}

// Room for the largest file: 64 leap entries, 128 suis of 13 months.
pub fn file_room() -> [u8; 16140]
    ensures { 16140 ≡ length result }
{
    [0; 16140]
}

// The zone that a text says: one decimal word, the minutes. A text that says no word, or more than one, gets a number that is no zone: it is refused by 15.
// Kept: a number that is no zone for a text that says none, since the entry point refuses both alike; an `Option` would be refused a second time here.
fn zone_in(text: &[u8]) -> i64 {
    let mut word = [0; 8];
    match packing::pack(text, &mut word) {
        Ok(8) => words::inner::word_at(&word, 0),
        _ => -10000,
    }
}

// The zone that an argument says; without such an argument it is UTC+8.
pub fn zone_argument(rt: &impl Env, i: usize) -> i64 {
    if !outside::has_argument(rt, i) {
        return 480;
    }
    // Kept: fixed memory, no heap.
    let mut text = [0u8; 4096];
    let n = outside::argument(rt, i, &mut text);
    zone_in(&text[..n])
}

// Says on standard error whose series is refused; for other refusals nothing.
pub fn print_series(rt: &impl Eprint, words: &[i64], bytes: usize, zone: i64) -> io::Result<()> {
    match building::refused_series(words, bytes, zone) {
        Some(Body::Sun) => eprintln!(rt; "the Sun's series"),
        Some(Body::Moon) => eprintln!(rt; "the Moon's series"),
        None => Ok(()),
    }
}

fn piece_room() -> [u8; 65536]
    ensures { 65536 ≡ length result }
{
    [0; 65536]
}

// Takes the next piece that is read, and says how many bytes are taken now: fewer than 65,536 more where the input ends. Where reading fails nothing of it is taken.
fn take_next<I: Read>(input: &mut I, taken: usize, words: &mut [i64]) -> io::Result<usize>
    requires taken_bound { taken ≤ 2017080 }
    requires words_len { length words.old ≡ 252135 }
    ensures next { IfOk result (λ bytes. TakenNext taken words.old words.new bytes) }
    ensures failed { IfErr result (λ error. words.new ≡ words.old) }
{
    // Kept: fixed memory, no heap.
    let mut piece = piece_room();
    let n = outside::read_full(input, &mut piece)?;
    Ok(pieces::inner::take(&piece[..n], taken, words))
}

// Takes an input piece by piece until it ends, or until it is too long, and says how many bytes it has then. What was read no contract can say; that it was taken
// one piece after another, each but the last of whole words, this one does. Where reading fails, the pieces before were of whole words and are taken.
pub fn take_all<I: Read>(input: &mut I, words: &mut [i64]) -> io::Result<usize>
    requires { length words.old ≡ 252135 }
    ensures all { IfOk result (λ bytes. Taken words.old words.new bytes) }
    ensures failed { IfErr result (λ error. (bytes : ℕ) × TakenWhole words.old words.new bytes) }
{
    let mut taken = 0;
    while taken <= 2017080 {
        let before = taken;
        taken = take_next(input, before, words)?;
        if taken < before + 65536 {
            return Ok(taken);
        }
    }
    Ok(taken)
}
