// Walks every day that has a date through both directions and counts those that come back, the firsts and the thirty-firsts of a month among them.
#![tactic(auto)]

ghost use Rattle.std.specs.Prelude.{◌<◌};

use std::io;
use times::Day;

// Day -150,000 + k.
fn day_at(k: usize) -> Day
    requires { k < 350001 }
{
    Day(whole::inner::subtract(whole::inner::signed(k), 150000))
}

// Whether the day of the date of a day is that day.
fn comes_back(day: Day) -> bool {
    dates::date_of(day)
        .and_then(|date| dates::day_of(date))
        .is_ok_and(|back| back.0 == day.0)
}

// Whether the date of a day has this day of the month.
fn has_day(day: Day, wanted: i64) -> bool {
    dates::date_of(day).is_ok_and(|date| date.day == wanted)
}

fn main(rt: HostRuntime) -> io::Result<()> {
    let mut back: u64 = 0;
    let mut firsts: u64 = 0;
    let mut lasts: u64 = 0;
    for k in 0..350001 {
        let day = day_at(k);
        back += u64::from(comes_back(day));
        firsts += u64::from(has_day(day, 1));
        lasts += u64::from(has_day(day, 31));
    }
    println!(rt; "{back} days there and back, {firsts} firsts, {lasts} thirty-firsts")
}
