// Days and Gregorian dates (document 01, "Three counts of time").
#![tactic(auto)]

ghost use Rattle.std.specs.Prelude.{◌≡◌};
ghost use Rattle.refusals.specs.Verdict.{paper};
ghost use Rattle.dates.specs.Answers.{date_of, day_of};

use refusals::Refusal;
use times::Day;
use whole::inner::in_range;

pub mod inner;

#[derive(Clone, Copy)]
pub struct Date {
    pub year: i64,
    pub month: i64,
    pub day: i64,
}

// The date of a day.
pub fn date_of(day: Day) -> Result<Date, Refusal>
    ensures { paper result ≡ date_of day }
{
    if !inner::has_date(day) {
        return Err(Refusal::Outside);
    }
    Ok(inner::date_for(day))
}

// The day of a date. The days of the range lie in the years 1589 to 2547. A year outside 1500 to 2600 has none of them, so that nothing is refused
// here that has a day, and inside them the day number is small: nothing overflows, whatever three numbers a date is made of.
pub fn day_of(date: Date) -> Result<Day, Refusal>
    ensures { paper result ≡ day_of date }
{
    if !in_range(1500, 2600, date.year) {
        return Err(Refusal::Outside);
    }
    if !inner::valid(date) {
        return Err(Refusal::Outside);
    }
    let day = inner::day_number(date);
    if !inner::has_date(day) {
        return Err(Refusal::Outside);
    }
    Ok(day)
}
