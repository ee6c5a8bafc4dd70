// A series: its acceptance, and its value at a second (document 01, "Segments").
#![tactic(auto)]

ghost use Rattle.std.specs.Prelude.{◌≡◌};
ghost use Rattle.refusals.specs.Verdict.{paper};
ghost use Rattle.series.specs.Series.{series};
ghost use Rattle.series.specs.Acceptance.{series_judged, value_of};

use refusals::Refusal;
use series::Body;
use times::Second;

pub mod inner;

// Accepts a series, or refuses it by 2, 3, 4 or 5.
pub fn accept(body: Body, start: Second, coefs: &[i64]) -> Result<(), Refusal>
    ensures { paper result ≡ series_judged (series body start.0 coefs.now) }
{
    inner::judging::shape(body, start, coefs.len())?;
    inner::judging::each_segment(body, coefs)
}

// The value at a second, or a refusal by 2 to 5, or by 6 outside the span.
pub fn value_at(body: Body, start: Second, coefs: &[i64], second: Second) -> Result<i64, Refusal>
    ensures { paper result ≡ value_of (series body start.0 coefs.now) second.0 }
{
    accept(body, start, coefs)?;
    if !inner::covers(body, start, coefs, second) {
        return Err(Refusal::Outside);
    }
    Ok(inner::value(body, start, coefs, second))
}
