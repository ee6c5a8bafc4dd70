// Two series of one kind, a near and a long one: which of them serves a second, and the coefficients of the segment that covers it (order 13).
#![tactic(auto)]

ghost use Rattle.std.specs.Prelude.{◌≡◌};
ghost use Rattle.refusals.specs.Verdict.{paper};
ghost use Rattle.series.specs.Series.{series};
ghost use Rattle.served.specs.Served.{serves, part_served, IsPart};

use acceptance::inner::{covers, segment_at, segment_of};
use refusals::Refusal;
use series::Body;
use served::{Served, Side};
use times::Second;

// Near, if that covers the second, and otherwise long, with the segment that has it. Refused by 2 to 5 for the near series, then for the long one; then by 18, where
// neither covers the second.
pub fn serves(
    body: Body,
    nearstart: Second,
    near: &[i64],
    longstart: Second,
    long: &[i64],
    second: Second,
) -> Result<Served, Refusal>
    ensures { paper result ≡ serves (series body nearstart.0 near.now) (series body longstart.0 long.now) second.0 }
{
    acceptance::accept(body, nearstart, near)?;
    acceptance::accept(body, longstart, long)?;
    if covers(body, nearstart, near, second) {
        return Ok(Served {
            side: Side::Near,
            segment: segment_at(body, nearstart, second),
        });
    }
    if covers(body, longstart, long, second) {
        return Ok(Served {
            side: Side::Long,
            segment: segment_at(body, longstart, second),
        });
    }
    Err(Refusal::NotCovered)
}

// The coefficients of that segment: a part of the caller's own series, and no copy. After a refusal, which `serves` tells, the part is empty.
pub fn serving_part<'a>(
    body: Body,
    nearstart: Second,
    near: &'a [i64],
    longstart: Second,
    long: &'a [i64],
    second: Second,
) -> &'a [i64]
    ensures { IsPart (part_served (serves (series body nearstart.0 near.now) (series body longstart.0 long.now) second.0)) near.entry long.entry result }
{
    match serves(body, nearstart, near, longstart, long, second) {
        Ok(served) => match served.side {
            Side::Near => segment_of(near, served.segment),
            Side::Long => segment_of(long, served.segment),
        },
        Err(_) => &near[0..0],
    }
}
