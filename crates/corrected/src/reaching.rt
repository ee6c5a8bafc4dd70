// How many marks are reached where a segment of an accepted series begins.
ghost use Rattle.std.specs.Prelude.{◌≡◌, ◌≤◌};
ghost use Rattle.series.specs.Series.{series, segments, segment_start};
ghost use Rattle.series.specs.Acceptance.{Accepted};
ghost use Rattle.corrected.specs.theory.Kept.{reached_before, reached_from};

use acceptance::inner::half_length;
use finder::inner::{first_reached, index_at, last_reached};
use series::Body;
use times::Second;
use whole::inner::{add, signed, subtract};

// The first second of segment k, or the second behind the last one.
fn segment_start(body: Body, start: Second, coefs: &[i64], k: usize) -> Second
    requires accepted { Accepted (series body start.0 coefs.now) }
    requires k_bound { k ≤ segments coefs.now }
    ensures { result.0 ≡ segment_start (series body start.0 coefs.now) k }
{
    let from = start.0;
    let seconds = 2 * half_length(body) * k;
    Second(add(from, signed(seconds)))
}

// How many marks are reached before segment k; before the first segment, those of the first second.
pub fn reached_before(body: Body, start: Second, coefs: &[i64], k: usize) -> i64
    requires accepted { Accepted (series body start.0 coefs.now) }
    requires k_bound { k ≤ segments coefs.now }
    ensures { result ≡ reached_before (series body start.0 coefs.now) k }
{
    if k == 0 {
        return first_reached(body, start, coefs);
    }
    let begin = segment_start(body, start, coefs, k);
    index_at(body, start, coefs, Second(subtract(begin.0, 1)))
}

// How many are reached at the first second of segment k; behind the last segment, all.
pub fn reached_from(body: Body, start: Second, coefs: &[i64], k: usize) -> i64
    requires accepted { Accepted (series body start.0 coefs.now) }
    requires k_bound { k ≤ segments coefs.now }
    ensures { result ≡ reached_from (series body start.0 coefs.now) k }
{
    if coefs.len() / 14 <= k {
        return last_reached(body, start, coefs);
    }
    index_at(body, start, coefs, segment_start(body, start, coefs, k))
}
