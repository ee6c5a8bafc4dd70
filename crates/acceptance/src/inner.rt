// The value at a second of an accepted series. Callers show that the series is accepted and that the second is in its span. And the judgements of a series, each
// by itself.
ghost use Rattle.std.specs.Prelude.{◌≡◌, ◌*◌, ◌^◌, ◌/◌, ◌<◌, pos, ◌-ℤ◌, ◌*ℤ◌, ◌≤ℤ◌};
ghost use Rattle.whole.specs.Distance.{distance_from};
ghost use Rattle.whole.specs.PartOf.{PartOf};
ghost use Rattle.whole.specs.Ranges.{Within};
ghost use Rattle.series.specs.Bodies.{numbers};
ghost use Rattle.series.specs.Series.{series, segments, segment_length, InSpan, covers, last_second, value_at};
ghost use Rattle.series.specs.Acceptance.{Accepted};
ghost use Rattle.series.specs.theory.Place.{place_after};

use series::Body;
use times::Second;
use whole::inner::in_range;

pub mod judging;

// H, half the seconds of a segment.
// Kept: a number for each body in one line; a record of all such numbers would be made for one of its fields.
pub fn half_length(body: Body) -> usize
    ensures { result ≡ (numbers body).half_length }
{
    match body {
        Body::Sun => 1382400,
        Body::Moon => 172800,
    }
}

// How many units a mark is.
// Kept: a number for each body in one line; a record of all such numbers would be made for one of its fields.
pub fn mark_size(body: Body) -> i64
    ensures { result ≡ pos (numbers body).mark_size }
{
    match body {
        Body::Sun => 540000000,
        Body::Moon => 3240000000,
    }
}

// The segment that has the second so many seconds after the start. Each body divides by a constant.
fn segment_after(body: Body, seconds: usize) -> usize
    ensures { result ≡ seconds / segment_length body }
{
    match body {
        Body::Sun => seconds / 2764800,
        Body::Moon => seconds / 345600,
    }
}

// The place of a second, so many seconds after its segment's first.
fn place(step: i64, within: usize, half: i64) -> i64
    requires within { Within 384 step }
    requires within_bound { within < 2764800 }
    requires within_2 { Within 1382400 half }
    ensures { result ≡ step *ℤ (pos within -ℤ half) }
{
    step * (within as i64 - half)
}

// The place of the second so many seconds after the start.
fn place_after(body: Body, seconds: usize) -> i64
    ensures { result ≡ place_after body seconds }
{
    match body {
        Body::Sun => place(48, seconds % 2764800, 1382400),
        Body::Moon => place(384, seconds % 345600, 172800),
    }
}

// The coefficients of segment k: that part of the lent ones, and no copy.
pub fn segment_of(coefs: &[i64], k: usize) -> &[i64]
    requires { k < segments coefs.now }
    ensures { PartOf coefs.entry (14 * k) 14 result }
{
    let first = 14 * k;
    let end = first + 14;
    &coefs[first..end]
}

// The last second of the span.
pub fn last_second(body: Body, start: Second, coefs: &[i64]) -> Second
    requires { Accepted (series body start.0 coefs.now) }
    ensures { result.0 ≡ last_second (series body start.0 coefs.now) }
{
    let from = start.0;
    let seconds = 2 * half_length(body) * (coefs.len() / 14);
    let end = whole::inner::add(from, whole::inner::signed(seconds));
    Second(whole::inner::subtract(end, 1))
}

// Whether the span has a second.
pub fn covers(body: Body, start: Second, coefs: &[i64], second: Second) -> bool
    requires { Accepted (series body start.0 coefs.now) }
    ensures { result ≡ covers (series body start.0 coefs.now) second.0 }
{
    let last = last_second(body, start, coefs);
    in_range(start.0, last.0, second.0)
}

// The segment that has a second, which does not lie before the start.
pub fn segment_at(body: Body, start: Second, second: Second) -> usize
    requires start_le_second { start.0 ≤ℤ second.0 }
    requires second_bound { distance_from start.0 second.0 < 2 ^ 63 }
    ensures { result ≡ distance_from start.0 second.0 / segment_length body }
{
    segment_after(body, whole::inner::distance(start.0, second.0))
}

// The value at a second of the span.
pub fn value(body: Body, start: Second, coefs: &[i64], second: Second) -> i64
    requires accepted { Accepted (series body start.0 coefs.now) }
    requires in_span { InSpan (series body start.0 coefs.now) second.0 }
    ensures { result ≡ value_at (series body start.0 coefs.now) second.0 }
{
    let from = start.0;
    let at = second.0;
    let seconds = whole::inner::distance(from, at);
    let part = segment_of(coefs, segment_after(body, seconds));
    evaluator::inner::value(place_after(body, seconds), part)
}
