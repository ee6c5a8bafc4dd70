// The parts of the entry points. Those with a `requires` are for callers that have judged the zone, the table and the second: they judge nothing again.
// The zone is in minutes.
ghost use Rattle.std.specs.Prelude.{◌≡◌, true, suc, ◌+◌, ◌*◌, ◌<◌, pos, ◌+ℤ◌, ◌*ℤ◌, length};
ghost use Rattle.whole.specs.Ranges.{Within};
ghost use Rattle.whole.specs.Tests.{is_exactly};
ghost use Rattle.refusals.specs.Verdict.{paper};
ghost use Rattle.dates.specs.Answers.{has_date};
ghost use Rattle.clock.specs.Leap.{entries, offset, utc_day, first_entry, next_entry, good_entry, whole_pairs, leap_lawful, holds_from, holds, entry_used, inserted};
ghost use Rattle.clock.specs.Clock.{is_zone, convertible, tai, early, local_milli, reading, milli_in, read_off, count_in, day_of_milli, day_in, second_said, shown_by, shown_in, Readable};
ghost use Rattle.clock.specs.Answers.{clock_judged};

use clock::{Reading, ShownTime};
use refusals::Refusal;
use times::{Day, Milli, Second};
use whole::inner::{floor_mod, in_range};

// A TAI millisecond, counted from 2000-01-01 00:00 TAI. It does not leave this module.
#[derive(Clone, Copy)]
struct Tai(i64);

// Whether a day may stand in a table.
fn utc_day(day: Day) -> bool
    ensures { result ≡ utc_day day.0 }
{
    in_range(-120000, 100000, day.0)
}

// Whether (day, offset) may be the first entry.
fn first_entry(day: Day, offset: i64) -> bool
    ensures { result ≡ first_entry day.0 offset }
{
    if utc_day(day) {
        return in_range(0, 1000, offset);
    }
    false
}

// Whether entry (day, offset) may follow entry (d, o).
fn next_entry(d: Day, o: i64, day: Day, offset: i64) -> bool
    ensures { result ≡ next_entry d.0 o day.0 offset }
{
    if !utc_day(day) {
        return false;
    }
    if day.0 <= d.0 {
        return false;
    }
    one_more(o, offset)
}

// Whether an offset is one more than the one before it. They are compared before one is taken off, so that nothing overflows.
fn one_more(o: i64, offset: i64) -> bool
    ensures { result ≡ is_exactly (o +ℤ pos 1) offset }
{
    if offset <= o {
        return false;
    }
    offset - 1 <= o
}

// Whether entry i + 1 may follow entry i.
fn good_after(leap: &[i64], i: usize) -> bool
    requires { 2 * i + 3 < length leap.now }
    ensures { result ≡ good_entry leap.now (suc i) }
{
    next_entry(
        Day(leap[2 * i]),
        leap[2 * i + 1],
        Day(leap[2 * i + 2]),
        leap[2 * i + 3],
    )
}

// Whether entry i is good.
fn good_entry(leap: &[i64], i: usize) -> bool
    requires { i < entries leap.now }
    ensures { result ≡ good_entry leap.now i }
{
    if i == 0 {
        return first_entry(Day(leap[0]), leap[1]);
    }
    good_after(leap, i - 1)
}

// Whether so many words may be a table: 1 to 64 entries in whole pairs.
// Kept: two limits of a count; a function of both would be no shorter, and its limit would stand away from its rule.
fn whole_pairs(words: usize) -> bool
    ensures { result ≡ whole_pairs words }
{
    if 0 < words % 2 {
        return false;
    }
    if words < 2 {
        return false;
    }
    words <= 128
}

// Whether a leap table keeps its rule.
pub fn leap_lawful(leap: &[i64]) -> bool
    ensures { result ≡ leap_lawful leap.now }
{
    if !whole_pairs(leap.len()) {
        return false;
    }
    (0..leap.len() / 2).all(|i| good_entry(leap, i))
}

// The TAI millisecond at which a UTC day begins under an offset.
fn moment_of(day: Day, offset: i64) -> Tai
    requires within { Within 120000 day.0 }
    requires within_2 { Within 2000 offset }
    ensures { result.0 ≡ pos 1000 *ℤ (pos 86400 *ℤ day.0 +ℤ offset) }
{
    let days = day.0;
    Tai(1000 * (86400 * days + offset))
}

// The TAI millisecond from which entry i holds.
fn holds_from(leap: &[i64], i: usize) -> Tai
    requires leap_value { leap_lawful leap.now ≡ true }
    requires i_bound { i < entries leap.now }
    ensures { result.0 ≡ holds_from leap.now i }
{
    moment_of(Day(leap[2 * i]), leap[2 * i + 1])
}

// Whether entry i holds by TAI millisecond t.
fn holds(leap: &[i64], t: Tai, i: usize) -> bool
    requires leap_value { leap_lawful leap.now ≡ true }
    requires i_bound { i < entries leap.now }
    ensures { result ≡ holds leap.now t.0 i }
{
    let from = holds_from(leap, i);
    from.0 <= t.0
}

// The entry used at TAI millisecond t, by bisection: `low` holds by then, and nothing from `high` on does.
fn entry_used(leap: &[i64], t: Tai) -> usize
    requires leap_value { leap_lawful leap.now ≡ true }
    requires t_value { holds leap.now t.0 0 ≡ true }
    ensures { result ≡ entry_used leap.now t.0 }
{
    let mut low: usize = 0;
    let mut high = leap.len() / 2;
    // Kept: `as_chunks::<2>()` gives the pairs, but `partition_point` requires that its test may be called with any pair, and `moment_of` requires one of a lawful table.
    while low + 1 < high {
        let middle = low + (high - low) / 2;
        if holds(leap, t, middle) {
            low = middle;
        } else {
            high = middle;
        }
    }
    low
}

// The offset of entry i.
fn offset_at(leap: &[i64], i: usize) -> i64
    requires { i < entries leap.now }
    ensures { result ≡ offset leap.now i }
{
    leap[2 * i + 1]
}

// Whether a second can be converted.
pub fn convertible(second: Second) -> bool
    ensures { result ≡ convertible second }
{
    in_range(-10000000000, 16000000000, second.0)
}

// The TAI millisecond of a TDB second.
fn tai_of(second: Second) -> Tai
    requires { convertible second ≡ true }
    ensures { result.0 ≡ tai second }
{
    let s = second.0;
    Tai(1000 * s - 32184)
}

// Whether a second lies before the first leap entry.
pub fn early(leap: &[i64], second: Second) -> bool
    requires leap_value { leap_lawful leap.now ≡ true }
    requires second_value { convertible second ≡ true }
    ensures { result ≡ early leap.now second }
{
    !holds(leap, tai_of(second), 0)
}

// Whether so many minutes are a zone.
pub fn is_zone(zone: i64) -> bool
    ensures { result ≡ is_zone zone }
{
    in_range(-720, 840, zone)
}

// Whether a second is converted by a table in a zone: the judge behind the conversions.
pub fn judge(leap: &[i64], second: Second, zone: i64) -> Result<(), Refusal>
    ensures { paper result ≡ clock_judged leap.now second zone }
{
    if !is_zone(zone) {
        return Err(Refusal::Zone);
    }
    if !leap_lawful(leap) {
        return Err(Refusal::LeapTable);
    }
    if !convertible(second) {
        return Err(Refusal::Outside);
    }
    if early(leap, second) {
        return Err(Refusal::TooEarly);
    }
    Ok(())
}

// The local millisecond of a TAI millisecond under an offset.
fn local_milli(t: Tai, offset: i64, zone: i64) -> Milli
    requires within { Within 20000000000000 t.0 }
    requires within_2 { Within 2000 offset }
    requires within_3 { Within 1000 zone }
    ensures { result ≡ local_milli t.0 offset zone }
{
    let millis = t.0;
    Milli(millis - 1000 * offset + 60000 * zone)
}

// Whether TAI millisecond t, at which entry i is used, lies inside an inserted second: the next entry holds a second later.
fn inserted(leap: &[i64], t: Tai, i: usize) -> bool
    requires leap_value { leap_lawful leap.now ≡ true }
    requires within { Within 20000000000000 t.0 }
    requires i_value { i ≡ entry_used leap.now t.0 }
    ensures { result ≡ inserted leap.now t.0 }
{
    if leap.len() / 2 <= i + 1 {
        return false;
    }
    let millis = t.0;
    holds(leap, Tai(millis + 1000), i + 1)
}

// What the clock reads at a second.
pub fn reading(leap: &[i64], second: Second, zone: i64) -> Reading
    requires { Readable leap.now second zone }
    ensures { result ≡ reading leap.now second zone }
{
    let t = tai_of(second);
    let i = entry_used(leap, t);
    let offset = offset_at(leap, i);
    Reading {
        milli: local_milli(t, offset, zone),
        inserted: inserted(leap, t, i),
    }
}

// The local millisecond of a second.
pub fn milli_in(leap: &[i64], second: Second, zone: i64) -> Milli
    requires { Readable leap.now second zone }
    ensures { result ≡ milli_in leap.now second zone }
{
    let read = reading(leap, second, zone);
    read.milli
}

// The count off which day and time are read: inside an inserted second it is a second less.
fn read_off(read: Reading) -> Milli
    requires { Within 30000000000000 read.milli.0 }
    ensures { result ≡ read_off read }
{
    let milli = read.milli;
    let m = milli.0;
    if read.inserted {
        return Milli(m - 1000);
    }
    milli
}

// And that of a second.
pub fn count_in(leap: &[i64], second: Second, zone: i64) -> Milli
    requires { Readable leap.now second zone }
    ensures { result ≡ count_in leap.now second zone }
{
    read_off(reading(leap, second, zone))
}

// The local day of a second.
pub fn day_in(leap: &[i64], second: Second, zone: i64) -> Day
    requires { Readable leap.now second zone }
    ensures { result ≡ day_in leap.now second zone }
{
    super::day_of_milli(count_in(leap, second, zone))
}

// The second that is said when so many milliseconds of the day are over.
fn second_said(inserted: bool, rest: u64) -> u64
    ensures { result ≡ second_said inserted rest }
{
    if inserted {
        return 60;
    }
    rest / 1000 % 60
}

// A reading as it is shown, where its day has a date.
fn shown_by(read: Reading) -> ShownTime
    requires within { Within 30000000000000 read.milli.0 }
    requires read_value { has_date (day_of_milli (read_off read)).0 ≡ true }
    ensures { result ≡ shown_by read }
{
    let count = read_off(read);
    let m = count.0;
    let date = dates::inner::date_for(super::day_of_milli(count));
    let rest = whole::absolute(floor_mod(m, 86400000));
    let second = second_said(read.inserted, rest);
    ShownTime {
        date: date,
        hour: rest / 3600000,
        minute: rest / 60000 % 60,
        second: second,
        millisecond: rest % 1000,
    }
}

// The local time of a second, as it is shown.
pub fn shown_in(leap: &[i64], second: Second, zone: i64) -> ShownTime
    requires { Readable leap.now second zone }
    ensures { result ≡ shown_in leap.now second zone }
{
    shown_by(reading(leap, second, zone))
}
