// Rebuilds the almanac of thirty years of real series, the suis 1995 to 2024, by one new thing at a time: what an argument names is the words of a corrected segment (0 for
// the Sun or 1 for the Moon, the segment's number, 14 coefficients) or of a leap entry (day, offset). Prints whether the new file is the fresh build's, byte for byte, then
// what the rebuild program prints. At last the old file is damaged. What it must print comes from an independent rebuild (tests/rebuild_cases.py).
#![tactic(auto)]

ghost use Rattle.std.specs.Prelude.{◌≡◌, length};

use alike::inner::same_bytes;
use build_run::inner::{file_room, open_argument, print_argument, take_all, word_room};
use rebuild_run::inner::{print_rebuilt, year_room};
use refusals::Refusal;
use replacing::replace_segment;
use series::Body;
use std::io;
use std::rt::{Env, Files};
use times::Second;

// Room for a correction of any length up to 4 KiB.
fn change_bytes() -> [u8; 4096]
    ensures { 4096 ≡ length result }
{
    [0; 4096]
}

// The words of a correction.
fn change_words() -> [i64; 16]
    ensures { 16 ≡ length result }
{
    [0; 16]
}

// Copies words to the front of others, as far as both go.
fn copy_words(from: &[i64], to: &mut [i64]) {
    let n = from.len().min(to.len());
    to[..n].copy_from_slice(&from[..n]);
}

// Says whether what is rebuilt is what is built fresh.
fn print_fresh(
    rt: &impl Print,
    old: &[u8],
    oldwords: &[i64],
    oldbytes: usize,
    words: &[i64],
    bytes: usize,
) -> io::Result<()> {
    // Kept: fixed memory, no heap.
    let mut file = file_room();
    let mut years = year_room();
    let _ = rebuilding::rebuild_taken(
        old, oldwords, oldbytes, words, bytes, 480, &mut file, &mut years,
    );
    let mut fresh = file_room();
    let _ = building::build_taken(words, bytes, 480, &mut fresh);
    if !same_bytes(&file, &fresh) {
        print!(rt; "not ")?;
    }
    println!(rt; "as built fresh")
}

fn print_case(
    rt: &(impl Print + Eprint),
    old: &[u8],
    oldwords: &[i64],
    oldbytes: usize,
    words: &[i64],
    bytes: usize,
) -> io::Result<()> {
    print_fresh(rt, old, oldwords, oldbytes, words, bytes)?;
    print_rebuilt(
        rt,
        old,
        oldwords,
        oldbytes,
        words,
        bytes,
        480,
        &mut io::writer(rt),
    )
}

// The coefficients of a corrected segment.
fn corrected_part(change: &[i64]) -> [i64; 14]
    requires { length change.now ≡ 16 }
{
    let mut part: [i64; 14] = [0; 14];
    part.copy_from_slice(&change[2..]);
    part
}

// Replaces a segment: 346 of the Sun stand from word 61 on, behind their start, and 2,760 of the Moon from word 4,907 on.
fn correct(change: &[i64], words: &mut [i64]) -> Result<(), Refusal>
    requires change_len { length change.now ≡ 16 }
    requires words_len { length words.old ≡ 252135 }
{
    let number = whole::absolute(change[1]) as usize;
    let part = corrected_part(change);
    if change[0] == 0 {
        let start = Second(words[60]);
        return replace_segment(Body::Sun, start, &mut words[61..4905], number, part);
    }
    let start = Second(words[4906]);
    replace_segment(Body::Moon, start, &mut words[4907..43547], number, part)
}

// The words behind the leap table, two places further on: room for an entry.
fn make_room(oldwords: &[i64], words: &mut [i64])
    requires oldwords_len { length oldwords.now ≡ 252135 }
    requires words_len { length words.old ≡ 252135 }
{
    words[61..43549].copy_from_slice(&oldwords[59..43547]);
}

// Puts a leap entry behind the 28 that are there, where room was made for it.
fn put_entry(change: &[i64], words: &mut [i64])
    requires change_len { length change.now ≡ 16 }
    requires words_len { length words.old ≡ 252135 }
{
    words[2] = 29;
    words[59] = change[0];
    words[60] = change[1];
}

// Rebuilds by what argument i names.
fn rebuild_case(
    rt: &(impl Env + Files + Print + Eprint),
    i: usize,
    old: &[u8],
    oldwords: &[i64],
) -> io::Result<()>
    requires { length oldwords.now ≡ 252135 }
{
    print!(rt; "# ")?;
    print_argument(rt, i)?;
    println!(rt)?;
    let mut bytes = change_bytes();
    let mut file = open_argument(rt, i)?;
    let n = outside::read_full(&mut file, &mut bytes)?;
    let mut change = change_words();
    words::inner::read_words(&bytes, 16, &mut change);
    let mut words = word_room();
    copy_words(oldwords, &mut words);
    if n == 16 {
        make_room(oldwords, &mut words);
        put_entry(&change, &mut words);
        return print_case(rt, old, oldwords, 348376, &words, 348392);
    }
    if let Err(r) = correct(&change, &mut words) {
        return println!(rt; "R {r}");
    }
    print_case(rt, old, oldwords, 348376, &words, 348376)
}

// The last byte of the old file is one more.
fn rebuild_damaged(rt: &(impl Print + Eprint), old: &[u8], oldwords: &[i64]) -> io::Result<()> {
    println!(rt; "# damaged")?;
    // Kept: fixed memory, no heap.
    let mut damaged = file_room();
    let n = old.len();
    if 16140 < n {
        return Ok(());
    }
    if n < 1 {
        return Ok(());
    }
    damaged[..n].copy_from_slice(old);
    damaged[n - 1] = damaged[n - 1] % 255 + 1;
    print_rebuilt(
        rt,
        &damaged[..n],
        oldwords,
        348376,
        oldwords,
        348376,
        480,
        &mut io::writer(rt),
    )
}

fn rebuild_all(
    rt: &(impl Env + Files + Print + Eprint),
    old: &[u8],
    oldwords: &[i64],
) -> io::Result<()>
    requires { length oldwords.now ≡ 252135 }
{
    for i in 2..usize::MAX {
        if !outside::has_argument(rt, i) {
            break;
        }
        rebuild_case(rt, i, old, oldwords)?;
    }
    rebuild_damaged(rt, old, oldwords)
}

// Builds the old file and rebuilds it.
fn rebuild_built(
    rt: &(impl Env + Files + Print + Eprint),
    oldwords: &[i64],
    bytes: usize,
) -> io::Result<()>
    requires { length oldwords.now ≡ 252135 }
{
    // Kept: fixed memory, no heap.
    let mut file = file_room();
    match building::build_taken(oldwords, bytes, 480, &mut file) {
        Err(r) => println!(rt; "R {r}"),
        Ok(n) => rebuild_all(rt, &file[..n], oldwords),
    }
}

// The first argument names the input that the old file is built from.
fn main(rt: HostRuntime) -> io::Result<()> {
    println!(rt; "# sample")?;
    let mut input = open_argument(&rt, 1)?;
    build_run::build_from(&rt, &mut input, 480)?;
    let mut words = word_room();
    let mut again = open_argument(&rt, 1)?;
    let bytes = take_all(&mut again, &mut words)?;
    rebuild_built(&rt, &words, bytes)
}
