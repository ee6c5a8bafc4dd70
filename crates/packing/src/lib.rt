// Decimal words as text, packed into 64-bit little-endian words.
#![tactic(auto)]

ghost use Rattle.std.specs.Prelude.{◌≡◌, length};
ghost use Rattle.packing.specs.Packing.{packed, held};
ghost use Rattle.packing.specs.declared.PackError.TheVariants.{BadWord};

use std::error::Error;
use std::fmt;

mod passes;
mod reading;

// What stands in a text where a word should: its line, and its place among the words of that line, both counted from 1.
#[derive(Clone, Copy, Debug, PartialEq, Eq)]
pub struct BadWord {
    pub line: usize,
    pub word: usize,
}

impl fmt::Display for BadWord {
    fn fmt<W: fmt::Write>(&self, f: &mut fmt::Formatter<W>) -> fmt::Result {
        write!(f, "line {} word {}", self.line, self.word)
    }
}

impl Error for BadWord {}

// Why a text is not packed.
#[derive(Clone, Copy, Debug, PartialEq, Eq)]
pub enum PackError {
    // The first word that is none.
    BadWord(BadWord),
    // Lent room too small.
    Room,
}

impl fmt::Display for PackError {
    fn fmt<W: fmt::Write>(&self, f: &mut fmt::Formatter<W>) -> fmt::Result {
        match self {
            PackError::BadWord(bad) => write!(f, "{bad}"),
            PackError::Room => write!(f, "no room for the words"),
        }
    }
}

impl Error for PackError {}

impl From<BadWord> for PackError {
    ghost from_gives = { λ bad e. e ≡ BadWord bad };

    fn from(bad: BadWord) -> PackError {
        PackError::BadWord(bad)
    }
}

// Packs the words of a text into lent room and says how many bytes they have; else the first word that is none, and then whether the room is too short.
pub fn pack(text: &[u8], out: &mut [u8]) -> Result<usize, PackError>
    ensures value { result ≡ packed text.now (length out.old) }
    ensures out_after { out.new ≡ held text.now out.old }
{
    let n = passes::judge(text)?;
    if out.len() / 8 < n {
        return Err(PackError::Room);
    }
    passes::fill(text, out);
    Ok(8 * n)
}
