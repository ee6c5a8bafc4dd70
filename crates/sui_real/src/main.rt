// Prints the months of real suis, from cuts of real series, in UTC+8, in UTC+7 and beyond the last zone, one line a month: year, number, leap mark, handle, first day,
// length; for a refused sui the year, `R` and the number. No contract can hold what a program prints; what it must print comes from an independent program
// (tests/sui_real.py).
#![tactic(auto)]

ghost use Rattle.std.specs.Prelude.{◌≡◌, length};

use months::{Month, Sui};
use refusals::Refusal;
use std::io;
use std::io::Read;
use times::{Day, Second};

// Room for an input of any length up to 64 KiB.
fn input_room() -> [u8; 65536]
    ensures { 65536 ≡ length result }
{
    [0; 65536]
}

// The words of an input: six years, 28 leap entries, start and 37 segments of the Sun, start and 292 of the Moon.
fn zeros() -> [i64; 4670]
    ensures { 4670 ≡ length result }
{
    [0; 4670]
}

fn print(rt: &impl Print, n: i64) -> io::Result<()> {
    let size = whole::absolute(n);
    print!(rt; "{size}")
}

// In two digits.
fn print_two(rt: &impl Print, n: i64) -> io::Result<()> {
    if n < 10 {
        print!(rt; "0")?;
    }
    print(rt, n)
}

fn print_day(rt: &impl Print, day: Day) -> io::Result<()> {
    match dates::date_of(day) {
        Ok(date) => {
            print(rt, date.year)?;
            print!(rt; "-")?;
            print_two(rt, date.month)?;
            print!(rt; "-")?;
            print_two(rt, date.day)
        }
        Err(_) => print!(rt; "no date"),
    }
}

fn print_month(rt: &impl Print, year: i64, month: Month) -> io::Result<()> {
    let handle = whole::absolute(month.handle);
    let number = handle % 32 / 2;
    let leap = handle % 2;
    print(rt, year)?;
    print!(rt; " {number} {leap} {handle} ")?;
    print_day(rt, Day(month.first))?;
    print!(rt; " ")?;
    print(rt, month.length)?;
    println!(rt)
}

fn print_sui(rt: &impl Print, year: i64, found: Result<Sui, Refusal>) -> io::Result<()> {
    match found {
        Ok(sui) => {
            for month in sui.months.iter().take(sui.count) {
                print_month(rt, year, *month)?;
            }
            Ok(())
        }
        Err(r) => {
            print(rt, year)?;
            println!(rt; " R {}", r.number())
        }
    }
}

// The six suis of an input, in a zone.
fn print_suis(rt: &impl Print, words: &[i64], zone: i64) -> io::Result<()> {
    if words.len() != 4670 {
        return Ok(());
    }
    for &year in &words[..6] {
        let found = one_sui::sui(
            &words[6..62],
            Second(words[62]),
            &words[63..581],
            Second(words[581]),
            &words[582..4670],
            zone,
            year,
        );
        print_sui(rt, year, found)?;
    }
    Ok(())
}

fn print_zone(rt: &impl Print, words: &[i64], zone: i64) -> io::Result<()> {
    print!(rt; "zone ")?;
    print(rt, zone)?;
    println!(rt)?;
    print_suis(rt, words, zone)
}

// The suis of an input.
fn print_input<I: Read>(rt: &impl Print, from: &mut I) -> io::Result<()> {
    let mut input = input_room();
    let got = outside::read_full(from, &mut input)?;
    if got != 37360 {
        return println!(rt; "not 4670 words");
    }
    let mut words = zeros();
    words::inner::read_words(&input, 4670, &mut words);
    print_zone(rt, &words, 480)?;
    print_zone(rt, &words, 420)?;
    print_zone(rt, &words, 841)
}

fn main(rt: HostRuntime) -> io::Result<()> {
    outside::inner::each_file(&rt, |rt, file| print_input(rt, file))
}
