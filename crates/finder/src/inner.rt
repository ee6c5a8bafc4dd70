// What other crates ask of an accepted series: how many marks a second has reached, and how many are listed.
ghost use Rattle.std.specs.Prelude.{◌≡◌, length};
ghost use Rattle.series.specs.Series.{series, InSpan};
ghost use Rattle.series.specs.Acceptance.{Accepted};
ghost use Rattle.marks.specs.Listed.{listed_marks, reached_at, first_reached, last_reached};

use series::Body;
use times::Second;

// How many marks the value at a second has reached. Each body divides by a constant.
pub fn index_at(body: Body, start: Second, coefs: &[i64], second: Second) -> i64
    requires accepted { Accepted (series body start.0 coefs.now) }
    requires in_span { InSpan (series body start.0 coefs.now) second.0 }
    ensures { result ≡ reached_at (series body start.0 coefs.now) second.0 }
{
    let value = acceptance::inner::value(body, start, coefs, second);
    match body {
        Body::Sun => whole::inner::floor_div(value, 540000000),
        Body::Moon => whole::inner::floor_div(value, 3240000000),
    }
}

// The same at the first second of the span. A mark is listed when its index is larger ..
pub fn first_reached(body: Body, start: Second, coefs: &[i64]) -> i64
    requires { Accepted (series body start.0 coefs.now) }
    ensures { result ≡ first_reached (series body start.0 coefs.now) }
{
    index_at(body, start, coefs, start)
}

// .. and not larger than at the last.
pub fn last_reached(body: Body, start: Second, coefs: &[i64]) -> i64
    requires { Accepted (series body start.0 coefs.now) }
    ensures { result ≡ last_reached (series body start.0 coefs.now) }
{
    let last = acceptance::inner::last_second(body, start, coefs);
    index_at(body, start, coefs, last)
}

// How many marks are listed.
pub fn count(body: Body, start: Second, coefs: &[i64]) -> usize
    requires { Accepted (series body start.0 coefs.now) }
    ensures { result ≡ length (listed_marks (series body start.0 coefs.now)) }
{
    let lowest = first_reached(body, start, coefs);
    let highest = last_reached(body, start, coefs);
    whole::inner::distance(lowest, highest)
}
