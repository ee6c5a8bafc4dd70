// The locator's looks: a second by the coefficients, without an evaluation, and what a look at a second leaves.
ghost use Rattle.std.specs.Prelude.{◌≡◌, ◌<◌, ◌≤◌, pos, ◌-ℤ◌, ◌<ℤ◌};
ghost use Rattle.whole.specs.Floor.{floor_div};
ghost use Rattle.whole.specs.Ranges.{Within};
ghost use Rattle.guess.specs.Sizes.{Aim};
ghost use Rattle.series.specs.Series.{series, segments, InSpan, last_second};
ghost use Rattle.series.specs.Acceptance.{Accepted};
ghost use Rattle.marks.specs.Stretch.{Around, Searched};

use guess::inner::Aimed;
use series::Body;
use times::Second;

// ---- where to look first

// c0 of segment k.
fn constant(coefs: &[i64], k: usize) -> i64
    requires searched { Searched coefs.now }
    requires k_bound { k < segments coefs.now }
    ensures { Within 1000000000000000 result }
{
    let part = acceptance::inner::segment_of(coefs, k);
    part[0]
}

// c(n) of segment k, for another n.
fn other(coefs: &[i64], k: usize, n: usize) -> i64
    requires searched { Searched coefs.now }
    requires k_bound { k < segments coefs.now }
    requires le_n { (1 ≤ n) × (n < 14) }
    ensures { Within 4000000000 result }
{
    let part = acceptance::inner::segment_of(coefs, k);
    part[n]
}

// The segment to begin with.
fn hinted(coefs: &[i64], target: i64) -> usize
    requires searched { Searched coefs.now }
    requires within { Within 2000000000000000 target }
    ensures { result < segments coefs.now }
{
    let count = coefs.len() / 14;
    let first = constant(coefs, 0);
    let last = constant(coefs, count - 1);
    guess::inner::hint(first, last, count, target)
}

// From segment k to one nearer to the target, or k.
fn nearer(coefs: &[i64], k: usize, target: i64) -> usize
    requires searched { Searched coefs.now }
    requires k_bound { k < segments coefs.now }
    requires within { Within 2000000000000000 target }
    ensures { result < segments coefs.now }
{
    let middle = constant(coefs, k);
    let rise = other(coefs, k, 1);
    guess::inner::toward(middle, rise, k, coefs.len() / 14, target)
}

// The segment of the target as far as c0 and c1 tell, in at most eight passes.
fn segment_for(coefs: &[i64], target: i64) -> usize
    requires searched { Searched coefs.now }
    requires within { Within 2000000000000000 target }
    ensures { result < segments coefs.now }
{
    let mut k = hinted(coefs, target);
    for _ in 0..8 {
        let next = nearer(coefs, k, target);
        if next == k {
            return k;
        }
        k = next;
    }
    k
}

// The place in segment k.
fn place_for(coefs: &[i64], k: usize, target: i64) -> Aimed
    requires searched { Searched coefs.now }
    requires k_bound { k < segments coefs.now }
    requires within { Within 2000000000000000 target }
    ensures { Aim result.place result.slope }
{
    let c0 = constant(coefs, k);
    let c1 = other(coefs, k, 1);
    let c2 = other(coefs, k, 2);
    let c3 = other(coefs, k, 3);
    guess::inner::aim(c0, c1, c2, c3, target)
}

// A second near the target, and how much the value rises in half a segment there.
#[derive(Clone, Copy)]
pub struct Near {
    pub at: i64,
    pub slope: i64,
}

pub fn second_for(body: Body, start: Second, coefs: &[i64], target: i64) -> Near
    requires accepted { Accepted (series body start.0 coefs.now) }
    requires within { Within 2000000000000000 target }
    ensures { InSpan (series body start.0 coefs.now) result.at × (pos 0 <ℤ result.slope) }
{
    let first = start.0;
    let last = acceptance::inner::last_second(body, start, coefs);
    let end = last.0;
    let k = segment_for(coefs, target);
    let aimed = place_for(coefs, k, target);
    let half = acceptance::inner::half_length(body);
    Near {
        at: guess::inner::second(first, end, k, half, aimed.place),
        slope: aimed.slope,
    }
}

// ---- a look

// What a look leaves: two seconds, the first under the mark and the second at it or over; and by how much the value was under the mark.
#[derive(Clone, Copy)]
pub struct Looked {
    pub lo: i64,
    pub hi: i64,
    pub under: i64,
}

// Before any look: the whole span.
pub fn span(body: Body, start: Second, coefs: &[i64]) -> Looked
    requires { Accepted (series body start.0 coefs.now) }
    ensures { (result.lo ≡ start.0) × (result.hi ≡ last_second (series body start.0 coefs.now)) }
{
    let last = acceptance::inner::last_second(body, start, coefs);
    Looked {
        lo: start.0,
        hi: last.0,
        under: 0,
    }
}

// Looks at a second, if it lies inside.
pub fn look(body: Body, start: Second, coefs: &[i64], index: i64, around: Looked, at: i64) -> Looked
    requires accepted { Accepted (series body start.0 coefs.now) }
    requires around { Around (series body start.0 coefs.now) index around.lo around.hi }
    ensures { Around (series body start.0 coefs.now) index result.lo result.hi }
{
    let lo = around.lo;
    let hi = around.hi;
    if at <= lo {
        return around;
    }
    if hi <= at {
        return around;
    }
    let value = acceptance::inner::value(body, start, coefs, Second(at));
    let target = crate::inner::mark_value(body, index);
    let under = whole::inner::subtract(target, value);
    if value < target {
        return Looked { lo: at, hi, under };
    }
    Looked { lo, hi: at, under }
}

// The second of the mark, it is thought, after a look near it.
pub fn thought(body: Body, near: Near, there: Looked) -> i64
    requires within { Within 20000000000 near.at }
    requires pos_bound { pos 0 <ℤ near.slope }
    ensures { Within 2000000000000000000 result }
{
    let half = acceptance::inner::half_length(body);
    guess::inner::ahead(near.at, there.under, half, near.slope)
}

// How many seconds ahead of a look the mark lies at most, or behind it if the value has reached it: each second rises by 37 units at least.
pub fn seconds_on(target: i64, value: i64) -> i64
    requires within { Within 2000000000000000 target }
    requires within_2 { Within 2000000000000000 value }
    ensures { result ≡ floor_div (target -ℤ value) 37 }
{
    let under = whole::inner::subtract(target, value);
    whole::inner::floor_div(under, 37)
}
