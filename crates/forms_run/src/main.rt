// The named forms, made and run by another crate: a series as one thing, and a lent list of records. Two functions hold them; all else takes plain values.
#![tactic(auto)]

ghost use Rattle.std.specs.Prelude.{◌≡◌, replicate};
ghost use Rattle.refusals.specs.Lent.{written_into};
ghost use Rattle.refusals.specs.Verdict.{paper};
ghost use Rattle.series.specs.Series.{series};
ghost use Rattle.marks.specs.Answers.{counted_marks};
ghost use Rattle.months.specs.Limits.{months_of};
ghost use Rattle.records.specs.Records.{records_into, all_records};

use months::Month;
use refusals::Refusal;
use series::Body;
use std::io;
use times::Second;

// The number of marks, by way of the struct.
fn counted(body: Body, start: Second, coefs: &[i64]) -> Result<usize, Refusal>
    ensures { paper result ≡ counted_marks (series body start.0 coefs.now) }
{
    forms::count_marks(body, forms::series_of(start, coefs))
}

// The months of a sui in a list of its own, whose places hold `rest` before.
fn listed(year: i64, moons: &[i64], zhongqi: &[i64], rest: Month) -> [Month; 13]
    ensures { result ≡ written_into (records_into (months_of year moons.now zhongqi.now) 13) all_records (replicate 13 rest) }
{
    let mut list = [rest; 13];
    let _ = records::months_into(year, moons, zhongqi, &mut list);
    list
}

fn print(rt: &impl Print, n: i64) -> io::Result<()> {
    let size = whole::absolute(n);
    print!(rt; "{size}")
}

fn print_count(rt: &impl Print, answer: Result<usize, Refusal>) -> io::Result<()> {
    match answer {
        Ok(n) => println!(rt; "{n} marks"),
        Err(r) => println!(rt; "R {}", r.number()),
    }
}

// Handle, first day, length.
fn print_month(rt: &impl Print, month: Month) -> io::Result<()> {
    print(rt, month.handle)?;
    print!(rt; " ")?;
    print(rt, month.first)?;
    print!(rt; " ")?;
    print(rt, month.length)?;
    println!(rt)
}

// Each place of the list.
fn print_list(rt: &impl Print, list: [Month; 13]) -> io::Result<()> {
    for month in list {
        print_month(rt, month)?;
    }
    println!(rt)
}

// Document 01's lists of days, with 13 months and with 12, and a year that is refused; then the Sun of its listing, and that Sun with a coefficient too few.
fn main(rt: HostRuntime) -> io::Result<()> {
    let moons: [i64; 15] = [
        0, 30, 59, 89, 118, 148, 177, 207, 236, 266, 295, 325, 354, 384, 413,
    ];
    let thirteen: [i64; 13] = [20, 50, 81, 111, 142, 172, 203, 233, 264, 294, 324, 355, 385];
    let twelve: [i64; 13] = [2, 30, 58, 88, 119, 149, 180, 211, 242, 273, 303, 333, 363];
    let rest = Month {
        handle: 7,
        first: 8,
        length: 9,
    };
    print_list(&rt, listed(2000, &moons, &thirteen, rest))?;
    print_list(&rt, listed(2000, &moons, &twelve, rest))?;
    print_list(&rt, listed(2501, &moons, &twelve, rest))?;
    let sun: [i64; 14] = [552960000, 552960000, 0, 0, 0, 0, 0, 0, 0, 0, 0, 0, 0, 0];
    print_count(&rt, counted(Body::Sun, Second(0), &sun))?;
    print_count(&rt, counted(Body::Sun, Second(0), &sun[..13]))
}
