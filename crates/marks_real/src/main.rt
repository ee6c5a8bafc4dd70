// Lists the marks of a cut of real series, 24 segments of the Sun and 96 of the Moon, and prints how many there are and a checksum. What it must
// print comes from a plain walk over neighbouring seconds (bench/walk.c).
#![tactic(auto)]

ghost use Rattle.std.specs.Prelude.{◌≡◌, ◌<◌, length};

use series::Body;
use std::io;
use times::Second;

// Room for an input of any length up to 64 KiB.
fn input_room() -> [u8; 65536]
    ensures { 65536 ≡ length result }
{
    [0; 65536]
}

fn zeros() -> [i64; 2048]
    ensures { 2048 ≡ length result }
{
    [0; 2048]
}

fn mixed(sum: u64, word: i64) -> u64
    requires { sum < 1000000007 }
    ensures { result < 1000000007 }
{
    let rest = whole::absolute(whole::inner::floor_mod(word, 1000003)) % 1000003;
    (sum * 31 + rest) % 1000000007
}

// Of the first n marks.
fn checksum(words: &[i64], n: usize) -> u64 {
    let mut sum: u64 = 0;
    for mark in words.chunks(2).take(n) {
        for word in mark {
            sum = mixed(sum, *word);
        }
    }
    sum
}

fn report(rt: &impl Print, letter: &str, body: Body, start: i64, coefs: &[i64]) -> io::Result<()> {
    let mut out = zeros();
    print!(rt; "{letter} ")?;
    match finder::list_marks(body, Second(start), coefs, &mut out) {
        Ok(n) => {
            let sum = checksum(&out, n);
            println!(rt; "{n} marks, checksum {sum}")
        }
        Err(r) => println!(rt; "refused {}", r.number()),
    }
}

fn main(rt: HostRuntime) -> io::Result<()> {
    let mut input = input_room();
    let n = outside::read_full(&mut rt.stdin(), &mut input)?;
    if n != 13472 {
        return Ok(());
    }
    let mut words = zeros();
    words::inner::read_words(&input, 1684, &mut words);
    report(&rt, "S", Body::Sun, words[1], &words[2..338])?;
    report(&rt, "M", Body::Moon, words[339], &words[340..1684])
}
