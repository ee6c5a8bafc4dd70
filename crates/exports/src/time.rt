// Days and dates, and the clock.
ghost use Rattle.std.specs.Prelude.{◌≡◌};
ghost use Rattle.refusals.specs.Verdict.{answered};
ghost use Rattle.dates.specs.Answers.{date_of, day_of};
ghost use Rattle.clock.specs.Clock.{day_of_milli};
ghost use Rattle.clock.specs.Answers.{leap_judged, milli_of, day_of_second, shown_of};
ghost use Rattle.answers.specs.Record.{number_of, record_of, no_numbers, date_numbers, day_numbers, milli_numbers, shown_numbers};

use answer_record::inner::record::{record, tell};
use dates::Date;
use times::{Day, Milli, Second};

// The date of a day.
#[unsafe(no_mangle)]
pub extern "C" fn hzk_date_of(day: i64, answer: &mut [i64; 9]) -> i64
    ensures value { result ≡ number_of (date_of (record { 0 = day })) }
    ensures answer_after { answer.new ≡ record_of (date_of (record { 0 = day })) date_numbers }
{
    tell(record(dates::date_of(Day(day))), answer)
}

// The day of a date.
#[unsafe(no_mangle)]
pub extern "C" fn hzk_day_of(year: i64, month: i64, day: i64, answer: &mut [i64; 9]) -> i64
    ensures value { result ≡ number_of (day_of (record { year = year; month = month; day = day })) }
    ensures answer_after { answer.new ≡ record_of (day_of (record { year = year; month = month; day = day })) day_numbers }
{
    tell(record(dates::day_of(Date { year, month, day })), answer)
}

// Whether a leap table keeps its rule.
#[unsafe(no_mangle)]
pub extern "C" fn hzk_judge_leap_table(leap: &[i64], answer: &mut [i64; 9]) -> i64
    ensures value { result ≡ number_of (leap_judged leap.now) }
    ensures answer_after { answer.new ≡ record_of (leap_judged leap.now) no_numbers }
{
    tell(record(conversion::judge_leap_table(leap)), answer)
}

// The zone's millisecond of a second.
// Kept: the C interface names each.
#[unsafe(no_mangle)]
pub extern "C" fn hzk_milli_of(leap: &[i64], second: i64, zone: i64, answer: &mut [i64; 9]) -> i64
    ensures value { result ≡ number_of (milli_of leap.now (record { 0 = second }) zone) }
    ensures answer_after { answer.new ≡ record_of (milli_of leap.now (record { 0 = second }) zone) milli_numbers }
{
    tell(
        record(conversion::milli_of(leap, Second(second), zone)),
        answer,
    )
}

// The zone's day of a second.
// Kept: the C interface names each.
#[unsafe(no_mangle)]
pub extern "C" fn hzk_day_of_second(
    leap: &[i64],
    second: i64,
    zone: i64,
    answer: &mut [i64; 9],
) -> i64
    ensures value { result ≡ number_of (day_of_second leap.now (record { 0 = second }) zone) }
    ensures answer_after { answer.new ≡ record_of (day_of_second leap.now (record { 0 = second }) zone) day_numbers }
{
    tell(
        record(conversion::day_of_second(leap, Second(second), zone)),
        answer,
    )
}

// The day of a zone's millisecond: it is answered for every number.
#[unsafe(no_mangle)]
pub extern "C" fn hzk_day_of_milli(milli: i64, answer: &mut [i64; 9]) -> i64
    ensures value { result ≡ number_of (answered (day_of_milli (record { 0 = milli }))) }
    ensures answer_after { answer.new ≡ record_of (answered (day_of_milli (record { 0 = milli }))) day_numbers }
{
    tell(record(Ok(conversion::day_of_milli(Milli(milli)))), answer)
}

// The zone's date and time of a second.
// Kept: the C interface names each.
#[unsafe(no_mangle)]
pub extern "C" fn hzk_shown(leap: &[i64], second: i64, zone: i64, answer: &mut [i64; 9]) -> i64
    ensures value { result ≡ number_of (shown_of leap.now (record { 0 = second }) zone) }
    ensures answer_after { answer.new ≡ record_of (shown_of leap.now (record { 0 = second }) zone) shown_numbers }
{
    tell(
        record(conversion::shown(leap, Second(second), zone)),
        answer,
    )
}
