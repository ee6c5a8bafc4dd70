// One segment of a lent series is replaced, and the new series judged as a whole: the way by which single segments come in.
#![tactic(auto)]

ghost use Rattle.std.specs.Prelude.{◌≡◌};
ghost use Rattle.refusals.specs.Verdict.{paper};
ghost use Rattle.series.specs.Series.{series};
ghost use Rattle.replacing.specs.Replaced.{segment_replaced, segment_checked, held_after};

use refusals::Refusal;
use series::Body;
use times::Second;

mod parts;

// Replaces segment `number` of a lent series by 14 coefficients; 6 where there is no such segment, then 2 to 5 of the new series. Refused, the series is as it was:
// the part is judged where it will stand, and the words that it replaced are kept until then.
pub fn replace_segment(
    body: Body,
    start: Second,
    coefs: &mut [i64],
    number: usize,
    part: [i64; 14],
) -> Result<(), Refusal>
    ensures result_value { paper result ≡ segment_checked (series body start.0 coefs.old) number part }
    ensures coefs_after { coefs.new ≡ held_after (segment_replaced (series body start.0 coefs.old) number part) coefs.old }
{
    if coefs.len() / 14 <= number {
        return Err(Refusal::Outside);
    }
    let before = parts::part_of(coefs, number);
    parts::put(coefs, number, part);
    let judged = acceptance::accept(body, start, coefs);
    if judged.is_err() {
        parts::put(coefs, number, before);
    }
    judged
}
