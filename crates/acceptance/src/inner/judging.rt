// Judging a series: its shape, then its segments in one pass, and the first segment that breaks the lowest rule.
ghost use Rattle.std.specs.Prelude.{◌≡◌, false, cond, ◌*◌, eqb, pos, neg_ℤ, ◌-ℤ◌, length};
ghost use Rattle.std.specs.Int.Signed.{lt_z};
ghost use Rattle.whole.specs.Floor.{floor_div};
ghost use Rattle.whole.specs.Ranges.{Within};
ghost use Rattle.chebyshev.specs.Polynomials.{S};
ghost use Rattle.chebyshev.specs.Segment.{value, slope, InRange};
ghost use Rattle.refusals.specs.Verdict.{accepted, paper};
ghost use Rattle.series.specs.Bodies.{numbers};
ghost use Rattle.series.specs.Acceptance.{judged_shape, bad_rise, judged_segments};
ghost use Rattle.series.specs.theory.Kept.{first_of, found};

use refusals::Refusal;
use series::Body;
use times::Second;

// The most coefficients that a series may have.
// Kept: a number for each body in one line; a record of all such numbers would be made for one of its fields.
fn most(body: Body) -> usize
    ensures { result ≡ 14 * (numbers body).most_segments }
{
    match body {
        Body::Sun => 28000,
        Body::Moon => 224000,
    }
}

// 2: the count of coefficients, and the start.
pub fn shape(body: Body, start: Second, count: usize) -> Result<(), Refusal>
    ensures { paper result ≡ judged_shape body start.0 count }
{
    let from = start.0;
    if count % 14 != 0 {
        return Err(Refusal::Shape);
    }
    if count == 0 {
        return Err(Refusal::Shape);
    }
    if most(body) < count {
        return Err(Refusal::Shape);
    }
    if from < -10000000000 {
        return Err(Refusal::Shape);
    }
    if 10000000000 < from {
        return Err(Refusal::Shape);
    }
    Ok(())
}

// A sum divided by H and rounded down. A multiple of H is added first, so that an unsigned division by a constant does it.
fn floor_by_half(body: Body, t: i64) -> i64
    requires { Within 10000000000000 t }
    ensures { result ≡ floor_div t (numbers body).half_length }
{
    match body {
        Body::Sun => ((t + 11596411699200) as u64 / 1382400) as i64 - 8388608,
        Body::Moon => ((t + 11596411699200) as u64 / 172800) as i64 - 67108864,
    }
}

// The values at a segment's first and last second.
#[derive(Clone, Copy)]
struct Ends {
    first: i64,
    last: i64,
}

// Both by their closed forms (`first_value_lem`, `last_value_lem`), which share two sums.
fn ends_of(body: Body, part: &[i64]) -> Ends
    requires part_len { length part.now ≡ 14 }
    requires in_range { InRange part.now }
    ensures first_value { result.first ≡ value part.now (neg_ℤ (pos S)) }
    ensures last_value { result.last ≡ value part.now (pos S -ℤ pos (numbers body).step) }
{
    let even = evaluator::inner::even_sum(part);
    let odd = evaluator::inner::odd_sum(part);
    let down = whole::inner::subtract(0, evaluator::inner::square_sum(part));
    let first = whole::inner::subtract(even, odd);
    let sum = whole::inner::add(even, odd);
    let last = whole::inner::add(sum, floor_by_half(body, down));
    Ends {
        first: first,
        last: last,
    }
}

// Whether a segment rises too slowly.
fn too_slow(body: Body, part: &[i64]) -> bool
    requires part_len { length part.now ≡ 14 }
    requires in_range { InRange part.now }
    ensures { result ≡ lt_z (slope part.now) (pos (100 * (numbers body).half_length)) }
{
    let least = whole::inner::signed(100 * crate::inner::half_length(body));
    evaluator::inner::slope(part) < least
}

// Whether segment k, which begins with the value `first`, does not join the one before it, which ends with `last`. Segment 0 joins none.
fn joins_badly(k: usize, last: i64, first: i64) -> bool
    requires within { Within 1000100000000000 last }
    requires within_2 { Within 1000100000000000 first }
    ensures { result ≡ cond (eqb k 0) false (bad_rise (first -ℤ last)) }
{
    let rise = whole::inner::subtract(first, last);
    if k == 0 {
        return false;
    }
    rise < 200 || 100000 < rise
}

// The first bad segment of `count` so far: the one kept, or k.
fn first_of(kept: usize, count: usize, bad: bool, k: usize) -> usize
    ensures { result ≡ first_of kept count bad k }
{
    if kept < count {
        return kept;
    }
    if bad { k } else { kept }
}

// 4 at the slow segment that was kept, or else 5 at the joint that was.
fn kept_refusal(count: usize, slow: usize, joint: usize) -> Result<(), Refusal>
    ensures { paper result ≡ found 4 slow count (found 5 joint count accepted) }
{
    if slow < count {
        return Err(Refusal::TooSlow(slow));
    }
    if joint < count {
        return Err(Refusal::Joint(joint));
    }
    Ok(())
}

// 3, 4 and 5 in one pass. 3 refuses at once; the first slow segment and the first bad joint are kept until 3 is known of all.
pub fn each_segment(body: Body, coefs: &[i64]) -> Result<(), Refusal>
    ensures { paper result ≡ judged_segments body coefs.now }
{
    let count = coefs.len() / 14;
    let mut slow = count;
    let mut joint = count;
    let mut last: i64 = 0;
    for k in 0..count {
        let part = crate::inner::segment_of(coefs, k);
        if evaluator::inner::out_of_range(part) {
            return Err(Refusal::Coefficient(k));
        }
        slow = first_of(slow, count, too_slow(body, part), k);
        let ends = ends_of(body, part);
        joint = first_of(joint, count, joins_badly(k, last, ends.first), k);
        last = ends.last;
    }
    kept_refusal(count, slow, joint)
}
