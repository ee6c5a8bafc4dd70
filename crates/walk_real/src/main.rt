// Walks a cut of real series, two segments of the Sun and sixteen of the Moon, and lists the same by the finder: with room to spare, exactly enough, and a word less; then
// series that are refused. Prints what the walk answers, whether the finder answers and leaves the same, and the marks. What it must print comes from another walk
// (bench/walk.c) and from document 01's table.
#![tactic(auto)]

ghost use Rattle.std.specs.Prelude.{◌≡◌, ◌≤◌, length};

use alike::inner::same_words;
use refusals::Refusal;
use series::Body;
use std::io;
use times::Second;

// Room for an input of any length up to 4 KiB.
fn input_room() -> [u8; 4096]
    ensures { 4096 ≡ length result }
{
    [0; 4096]
}

fn zeros() -> [i64; 256]
    ensures { 256 ≡ length result }
{
    [0; 256]
}

// What is lent: that nothing but marks is written shows in it.
fn sevens() -> [i64; 24]
    ensures { 24 ≡ length result }
{
    [7; 24]
}

fn print(rt: &impl Print, n: i64) -> io::Result<()> {
    print!(rt; "{n}")
}

fn print_answer(rt: &impl Print, answer: Result<usize, Refusal>) -> io::Result<()> {
    match answer {
        Ok(n) => print!(rt; "{n} marks"),
        Err(r) => print!(rt; "refused {}, segment {}", r.number(), r.segment()),
    }
}

// The marks that were written, one a line.
fn print_marks(rt: &impl Print, words: &[i64]) -> io::Result<()> {
    let places = words.len() / 2;
    for i in 0..places {
        let index = words[2 * i];
        if index == 7 {
            return Ok(());
        }
        print(rt, index)?;
        print!(rt; " ")?;
        print(rt, words[2 * i + 1])?;
        println!(rt)?;
    }
    Ok(())
}

fn compare(
    rt: &impl Print,
    name: &str,
    body: Body,
    start: i64,
    coefs: &[i64],
    walked: &mut [i64],
    found: &mut [i64],
) -> io::Result<()> {
    let by_walk = walk::list_marks(body, Second(start), coefs, walked);
    let by_finder = finder::list_marks(body, Second(start), coefs, found);
    print!(rt; "{name}: ")?;
    print_answer(rt, by_walk)?;
    if by_walk == by_finder && same_words(walked, found) {
        println!(rt; ", as the finder")?;
    } else {
        println!(rt; ", not as the finder")?;
    }
    print_marks(rt, walked)
}

fn in_room(
    rt: &impl Print,
    name: &str,
    body: Body,
    start: i64,
    coefs: &[i64],
    room: usize,
) -> io::Result<()>
    requires { room ≤ 24 }
{
    // Kept: fixed memory, no heap.
    let mut walked = sevens();
    // Kept: fixed memory, no heap.
    let mut found = sevens();
    compare(
        rt,
        name,
        body,
        start,
        coefs,
        &mut walked[..room],
        &mut found[..room],
    )
}

// Kept: each line says its own numbers; a function of both would be handed them all.
fn sun_cases(rt: &impl Print, start: i64, coefs: &[i64]) -> io::Result<()> {
    in_room(rt, "S, 24 words", Body::Sun, start, coefs, 24)?;
    in_room(rt, "S, 8 words", Body::Sun, start, coefs, 8)?;
    in_room(rt, "S, 7 words", Body::Sun, start, coefs, 7)
}

// Kept: each line says its own numbers; a function of both would be handed them all.
fn moon_cases(rt: &impl Print, start: i64, coefs: &[i64]) -> io::Result<()> {
    in_room(rt, "M, 24 words", Body::Moon, start, coefs, 24)?;
    in_room(rt, "M, 18 words", Body::Moon, start, coefs, 18)?;
    in_room(rt, "M, 17 words", Body::Moon, start, coefs, 17)
}

fn spoil(coefs: &mut [i64], at: usize, word: i64) {
    if at < coefs.len() {
        coefs[at] = word;
    }
}

// One thing more is wrong from case to case, and the lower number wins.
fn refused_cases(rt: &impl Print, start: i64, coefs: &mut [i64]) -> io::Result<()> {
    spoil(coefs, 14, 0);
    in_room(rt, "S, a joint apart", Body::Sun, start, coefs, 0)?;
    spoil(coefs, 15, 0);
    in_room(rt, "S, at rest", Body::Sun, start, coefs, 0)?;
    spoil(coefs, 16, 4000000001);
    in_room(rt, "S, out of range", Body::Sun, start, coefs, 0)
}

fn main(rt: HostRuntime) -> io::Result<()> {
    let mut input = input_room();
    let n = outside::read_full(&mut rt.stdin(), &mut input)?;
    if n != 2048 {
        return Ok(());
    }
    let mut words = zeros();
    words::inner::read_words(&input, 256, &mut words);
    let sun = words[1];
    let moon = words[31];
    sun_cases(&rt, sun, &words[2..30])?;
    moon_cases(&rt, moon, &words[32..256])?;
    in_room(&rt, "S, a word short", Body::Sun, sun, &words[2..29], 0)?;
    refused_cases(&rt, sun, &mut words[2..30])
}
