// Asks of many pairs of a near and a long series which of them serves a second, and prints the answer and the part that is given back, a line a case: its coefficients,
// or none. A case is 90 words: 1 for the Moon, the second, start and number of words of the near series and of the long one, and room for 28 words and for 56.
// What it must print comes from tests/serve_cases.py.
#![tactic(auto)]

ghost use Rattle.std.specs.Prelude.{◌≡◌, ◌≤◌, length};

use refusals::Refusal;
use series::Body;
use served::{Served, Side};
use std::io;
use times::Second;

fn print_answer(rt: &impl Print, answer: Result<Served, Refusal>) -> io::Result<()> {
    match answer {
        Ok(served) => match served.side {
            Side::Near => print!(rt; "near {}", served.segment),
            Side::Long => print!(rt; "long {}", served.segment),
        },
        Err(r) => print!(rt; "R {} {}", r.number(), r.segment()),
    }
}

fn print_words(rt: &impl Print, words: &[i64]) -> io::Result<()> {
    for word in words {
        print!(rt; " {word}")?;
    }
    println!(rt)
}

fn ask<'a>(
    rt: &impl Print,
    body: Body,
    nearstart: i64,
    near: &'a [i64],
    longstart: i64,
    long: &'a [i64],
    second: i64,
) -> io::Result<()> {
    print_answer(
        rt,
        serving::serves(
            body,
            Second(nearstart),
            near,
            Second(longstart),
            long,
            Second(second),
        ),
    )?;
    print!(rt; ":")?;
    let part = serving::serving_part(
        body,
        Second(nearstart),
        near,
        Second(longstart),
        long,
        Second(second),
    );
    print_words(rt, part)
}

fn body_of(flag: i64) -> Body {
    if flag == 1 { Body::Moon } else { Body::Sun }
}

// How many words, and no more than there is room for.
fn within(words: i64, room: usize) -> usize
    ensures { result ≤ room }
{
    let n = whole::absolute(words) as usize;
    if n <= room { n } else { room }
}

fn one_case(rt: &impl Print, case: &[i64]) -> io::Result<()>
    requires { length case.now ≡ 90 }
{
    let n = within(case[3], 28);
    let m = within(case[5], 56);
    let near_end = 6 + n;
    let long_end = 34 + m;
    ask(
        rt,
        body_of(case[0]),
        case[2],
        &case[6..near_end],
        case[4],
        &case[34..long_end],
        case[1],
    )
}

fn main(rt: HostRuntime) -> io::Result<()> {
    for _ in 0..1000 {
        let mut input = [0; 720];
        let n = outside::read_full(&mut rt.stdin(), &mut input)?;
        if n != 720 {
            return Ok(());
        }
        let mut words = [0; 90];
        words::inner::read_words(&input, 90, &mut words);
        one_case(&rt, &words)?;
    }
    Ok(())
}
