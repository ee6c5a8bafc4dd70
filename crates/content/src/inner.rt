// Judging what a file holds: a walk over suis and months, wherever they are read from; and the words of three lists. Sums are made only of numbers that were judged.
ghost use Rattle.std.specs.Prelude.{◌≡◌, List, ◌+◌, ◌-◌, ◌/◌, ◌%◌, ◌^◌, ◌≤◌, ◌<◌, ℤ, pos, nat_abs, ◌≤ℤ◌, length, is_some, IfSome};
ghost use Rattle.whole.specs.Ranges.{Within};
ghost use Rattle.content.specs.Content.{content, year_at, count_at, month_at, good_months, whole_suis, lawful};
ghost use Rattle.content.specs.Steps.{ordinary, sui_after, walked_on, suis_lawful};
ghost use Rattle.content.specs.theory.Walk.{Due};

use crate::listed::Lists;
use crate::month::{good_days, handle_after, leap_handle};
use dates::inner::has_date;
use month_rule::inner::month_of;
use months::Month;
use times::Day;
use whole::inner::{add, count, in_range, signed};

// A sui as it is recorded: its year, and how many months it has.
#[derive(Clone, Copy)]
pub struct SuiRecord {
    pub year: i64,
    pub months: i64,
}

// Where suis and months are read from. Their words are `suis` and `months`, two for each sui and three for each month.
pub trait Records {
    ghost suis: { Self → List ℤ };

    ghost months: { Self → List ℤ };

    fn sui_count(&self) -> usize
        ensures { result ≡ length (suis self.now) / 2 };

    fn month_count(&self) -> usize
        ensures { result ≡ length (months self.now) / 3 };

    fn sui_at(&self, i: usize) -> SuiRecord
        requires { i < length (suis self.now) / 2 }
        ensures year_value { result.year ≡ year_at (suis self.now) i }
        ensures months_value { result.months ≡ count_at (suis self.now) i };

    fn month_at(&self, k: usize) -> Month
        requires { k < length (months self.now) / 3 }
        ensures { result ≡ month_at (months self.now) k };
}

// Where a walk over the months of a sui stands, all so far being good: how many of them are leap months, the handle of the next ordinary one, and the day on which the next must begin.
#[derive(Clone, Copy)]
pub struct Walked {
    pub leaps: usize,
    pub next: i64,
    pub due: i64,
}

// 1 to 128 suis in whole records, by the number of words.
// Kept: two limits of a count; a function of both would be no shorter, and its limit would stand away from its rule.
fn whole_suis(words: usize) -> bool
    ensures { result ≡ whole_suis words }
{
    if words % 2 != 0 {
        return false;
    }
    if words < 2 {
        return false;
    }
    words <= 256
}

// A sui that must have the year `due`: its year, and 12 or 13 months.
fn good_sui(due: i64, year: i64, months: i64) -> bool
    ensures { result ≡ sui_after due year months }
{
    if !in_range(1700, 2500, year) {
        return false;
    }
    if year != due {
        return false;
    }
    in_range(12, 13, months)
}

// The handle of the first month of a sui.
fn first_handle(year: i64) -> i64
    requires { Within 2500 year }
    ensures { result ≡ ordinary year 0 }
{
    let month = month_of(year, 13, 0, 0, 0);
    month.handle
}

// One month more, if it is a good one. `next` is the handle of an ordinary month here, `due` the day on which the month must begin.
fn judge_month(
    year: i64,
    months: i64,
    place: usize,
    leaps: usize,
    next: i64,
    due: i64,
    handle: i64,
    first: i64,
    size: i64,
) -> Option<Walked>
    requires within { Within 2500 year }
    requires place_bound { place < 13 }
    requires leaps_le_place { leaps ≤ place }
    requires next_value { next ≡ ordinary year (place - leaps) }
    requires within_2 { Within 1000000 due }
    ensures { result ≡ walked_on year months leaps place due handle first size }
{
    if !good_days(due, first, size) {
        return None;
    }
    let behind = add(first, size);
    if handle == next {
        return Some(Walked {
            leaps,
            next: handle_after(year, next),
            due: behind,
        });
    }
    if !leap_handle(year, months, leaps, place, handle) {
        return None;
    }
    Some(Walked {
        leaps: leaps + 1,
        next,
        due: behind,
    })
}

// The months of a sui, which stand from month `from` on: the day on which the next sui must begin, if they are good ones.
fn months_lawful<R: Records>(
    records: &R,
    year: i64,
    size: i64,
    from: usize,
    due: i64,
) -> Option<i64>
    requires within { Within 2500 year }
    requires pos_bound { (pos 12 ≤ℤ size) × (size ≤ℤ pos 13) }
    requires size_bound { from + nat_abs size ≤ length (R.months records.now) / 3 }
    requires few { length (R.months records.now) / 3 < 2 ^ 64 }
    requires due { Due (R.months records.now) from due }
    ensures good_value { is_some result ≡ good_months (R.months records.now) year size from }
    ensures due_2 { IfSome result (λ day. Due (R.months records.now) (from + nat_abs size) day) }
{
    let last = count(size);
    let mut leaps: usize = 0;
    let mut next = first_handle(year);
    let mut day = due;
    for place in 0..last {
        let month = records.month_at(from + place);
        let walked = judge_month(
            year,
            size,
            place,
            leaps,
            next,
            day,
            month.handle,
            month.first,
            month.length,
        )?;
        leaps = walked.leaps;
        next = walked.next;
        day = walked.due;
    }
    (size == signed(12 + leaps)).then_some(day)
}

// Every sui and its months, one after another; and no month is left over.
pub fn suis_lawful<R: Records>(records: &R) -> bool
    requires some { 1 ≤ length (R.suis records.now) / 2 }
    requires whole { length (R.months records.now) % 3 ≡ 0 }
    ensures { result ≡ suis_lawful (R.suis records.now) (R.months records.now) }
{
    let months = records.month_count();
    if months < 1 {
        return false;
    }
    let mut day = records.month_at(0).first;
    if !has_date(Day(day)) {
        return false;
    }
    let mut due = records.sui_at(0).year;
    let mut from: usize = 0;
    for i in 0..records.sui_count() {
        let sui = records.sui_at(i);
        if !good_sui(due, sui.year, sui.months) {
            return false;
        }
        let size = count(sui.months);
        if months - from < size {
            return false;
        }
        let Some(next) = months_lawful(records, sui.year, sui.months, from, day) else {
            return false;
        };
        due = add(sui.year, 1);
        day = next;
        from += size;
    }
    months == from
}

// Whether the words of three lists are a lawful content.
pub fn is_lawful(leap: &[i64], suis: &[i64], months: &[i64]) -> bool
    ensures { result ≡ lawful (content leap.now suis.now months.now) }
{
    if !conversion::inner::leap_lawful(leap) {
        return false;
    }
    if !whole_suis(suis.len()) {
        return false;
    }
    if months.len() % 3 != 0 {
        return false;
    }
    suis_lawful(&Lists { suis, months })
}
