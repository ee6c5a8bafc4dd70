// Judging a part of the segments: those that changed, with one more on each side.
ghost use Rattle.std.specs.Prelude.{◌≡◌, ◌+◌, ◌-◌, ◌^◌, ◌≤◌, ◌<◌};
ghost use Rattle.refusals.specs.Verdict.{paper, refusal_number, refusal_segment};
ghost use Rattle.series.specs.Series.{segments};
ghost use Rattle.series.specs.Acceptance.{judged_segments};
ghost use Rattle.corrected.specs.theory.Parts.{part_of};
ghost use Rattle.corrected.specs.theory.Shifted.{shifted_by};

use acceptance::inner::judging::each_segment;
use refusals::Refusal;
use series::Body;

// The segment before the first that differs, or that one.
pub fn begin_of(first: usize) -> usize
    ensures { result ≡ first - 1 }
{
    if first == 0 { 0 } else { first - 1 }
}

// The segment behind the last that differs is the last of a part that ends here, if there is one.
pub fn end_of(end: usize, count: usize) -> usize
    requires { end ≤ count }
    ensures upper_bound { result ≤ count }
    ensures lower_bound { end ≤ result }
    ensures lower_bound_2 { end < count → end < result }
{
    if end < count { end + 1 } else { end }
}

// The part of the coefficients from one segment on and before another.
pub fn part_of(coefs: &[i64], from: usize, to: usize) -> &[i64]
    requires from_le_to { from ≤ to }
    requires to_bound { to ≤ segments coefs.now }
    ensures { result.now ≡ part_of coefs.now from to }
{
    &coefs[14 * from..14 * to]
}

// A refusal of a part, said of the whole: `from` segments come before it.
fn shifted(refusal: Refusal, from: usize) -> Refusal
    requires segment_bound { from + refusal_segment refusal < 2 ^ 62 }
    ensures number_stays { refusal_number result ≡ refusal_number refusal }
    ensures segment_is_later { 3 ≤ refusal_number refusal → refusal_number refusal ≤ 5 → refusal_segment result ≡ from + refusal_segment refusal }
{
    match refusal {
        Refusal::Coefficient(k) => Refusal::Coefficient(from + k),
        Refusal::TooSlow(k) => Refusal::TooSlow(from + k),
        Refusal::Joint(k) => Refusal::Joint(from + k),
        other => other,
    }
}

// 3, 4 and 5 of a part of the segments, by their numbers in the whole.
pub fn judged_part(body: Body, coefs: &[i64], from: usize, to: usize) -> Result<(), Refusal>
    requires from_le_to { from ≤ to }
    requires to_bound { to ≤ segments coefs.now }
    ensures { paper result ≡ shifted_by from (judged_segments body (part_of coefs.now from to)) }
{
    each_segment(body, part_of(coefs, from, to)).map_err(|refusal| shifted(refusal, from))
}
