// The days ahead once more, where those from before a correction are known. Of marks that it has not moved they are kept; the marks that it may have moved are those
// behind index `low` and up to `high`.
ghost use Rattle.std.specs.Prelude.{◌≡◌, ◌++◌, ◌+◌, ◌*◌, ◌≤◌, ◌<◌, length, take, drop};
ghost use Rattle.whole.specs.Lists.{placed};
ghost use Rattle.whole.specs.Tabulated.{tabulate};
ghost use Rattle.series.specs.declared.Body.TheVariants.{Sun};
ghost use Rattle.series.specs.Series.{series};
ghost use Rattle.turns.specs.Listed.{turn_index_of, turn_day};
ghost use Rattle.turns.specs.Searched.{Searched};
ghost use Rattle.sui.specs.theory.Found.{zhongqi_from};
ghost use Rattle.suis.specs.Ahead.{Ahead, zhongqi_of};
ghost use Rattle.kept_days.specs.KeptDays.{outside, DaysKept, ThirteenKept, ZhongqiKept};

use series::Body;
use suis::inner::zhongqi::{put_thirteen, zhongqi_days};
use times::Second;
use turns::inner::{TurnList, day_of_turn, turn_index};
use whole::inner::add;

// Whether none of the marks from the first to the last of these indices is one that may have moved.
fn outside(low: i64, high: i64, first: i64, last: i64) -> bool
    ensures { result ≡ outside low high first last }
{
    if last <= low {
        return true;
    }
    high < first
}

// The day of the i-th turn from a place on: the known one, where one is known and the turn has not moved.
fn day_again(
    leap: &[i64],
    body: Body,
    start: Second,
    coefs: &[i64],
    zone: i64,
    turns: TurnList,
    from: usize,
    i: usize,
    low: i64,
    high: i64,
    known: &[i64],
) -> i64
    requires searched { Searched leap.now (series body start.0 coefs.now) zone turns }
    requires i_bound { from + i < turns.count }
    requires days_kept { DaysKept leap.now (series body start.0 coefs.now) zone from low high known.now }
    ensures { result ≡ turn_day leap.now (series body start.0 coefs.now) zone (from + i) }
{
    let index = turn_index(body, turns.first, from + i);
    if i < known.len() && outside(low, high, index, index) {
        return known[i];
    }
    let day = day_of_turn(leap, body, start, coefs, zone, turns, from + i);
    day.0
}

// The days of n turns from a place on, as `days_ahead` finds them.
pub fn days_again(
    leap: &[i64],
    body: Body,
    start: Second,
    coefs: &[i64],
    zone: i64,
    turns: TurnList,
    from: usize,
    n: usize,
    low: i64,
    high: i64,
    known: &[i64],
    out: &mut [i64],
)
    requires searched { Searched leap.now (series body start.0 coefs.now) zone turns }
    requires n_bound { from + n ≤ turns.count }
    requires days_kept { DaysKept leap.now (series body start.0 coefs.now) zone from low high known.now }
    requires n_in_bounds { n ≤ length out.old }
    ensures { out.new ≡ tabulate (λ k. turn_day leap.now (series body start.0 coefs.now) zone (from + k)) n ++ drop n out.old }
{
    for (i, day) in out[..n].iter_mut().enumerate() {
        *day = day_again(
            leap, body, start, coefs, zone, turns, from, i, low, high, known,
        );
    }
}

// Thirteen words of a list.
fn thirteen(words: &[i64], at: usize) -> [i64; 13]
    requires { at + 13 ≤ length words.now }
    ensures { result ≡ take 13 (drop at words.now) }
{
    let mut days: [i64; 13] = [0; 13];
    days.copy_from_slice(&words[at..at + 13]);
    days
}

// The zhongqi days of the j-th sui from a place on: the known ones, where none of the thirteen has moved.
fn thirteen_again(
    leap: &[i64],
    start: Second,
    coefs: &[i64],
    zone: i64,
    suns: TurnList,
    place: usize,
    j: usize,
    solstices: &[i64],
    low: i64,
    high: i64,
    known: &[i64],
) -> [i64; 13]
    requires searched { Searched leap.now (series Sun start.0 coefs.now) zone suns }
    requires ahead { Ahead leap.now (series Sun start.0 coefs.now) zone place 0 solstices.now }
    requires j_in_bounds { j + 1 < length solstices.now }
    requires thirteen_kept { ThirteenKept leap.now (series Sun start.0 coefs.now) zone (turn_index_of (series Sun start.0 coefs.now) (place + j)) low high (take 13 (drop (13 * j) known.now)) }
    requires j_in_bounds_2 { 13 * j + 13 ≤ length known.now }
    ensures { result ≡ zhongqi_from leap.now (series Sun start.0 coefs.now) zone (turn_index_of (series Sun start.0 coefs.now) (place + j)) }
{
    let index = turn_index(Body::Sun, suns.first, place + j);
    if outside(low, high, index, add(index, 24)) {
        return thirteen(known, 13 * j);
    }
    let first = solstices[j];
    let last = solstices[j + 1];
    zhongqi_days(leap, start, coefs, zone, index, first, last)
}

// The zhongqi days of m suis from the solstice at a place on, as `zhongqi_ahead` finds them.
pub fn zhongqi_again(
    leap: &[i64],
    start: Second,
    coefs: &[i64],
    zone: i64,
    suns: TurnList,
    place: usize,
    m: usize,
    solstices: &[i64],
    low: i64,
    high: i64,
    known: &[i64],
    out: &mut [i64],
)
    requires searched { Searched leap.now (series Sun start.0 coefs.now) zone suns }
    requires ahead { Ahead leap.now (series Sun start.0 coefs.now) zone place 0 solstices.now }
    requires m_in_bounds { m < length solstices.now }
    requires zhongqi_kept { ZhongqiKept leap.now (series Sun start.0 coefs.now) zone place m low high known.now }
    requires m_in_bounds_2 { 13 * m ≤ length known.now }
    requires m_in_bounds_3 { 13 * m ≤ length out.old }
    ensures { out.new ≡ placed 0 (zhongqi_of leap.now (series Sun start.0 coefs.now) zone place m) out.old }
{
    for j in 0..m {
        let days = thirteen_again(
            leap, start, coefs, zone, suns, place, j, solstices, low, high, known,
        );
        put_thirteen(out, 13 * j, days);
    }
}
