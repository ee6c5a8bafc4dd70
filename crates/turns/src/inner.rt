// The marks that come once a circle: the Sun's winter solstices and the Moon's new moons. Both are found by index, so one search serves both.
ghost use Rattle.std.specs.Prelude.{◌≡◌, ◌+◌, ◌*◌, ◌^◌, ◌<◌, eqb, pos, ◌+ℤ◌};
ghost use Rattle.std.specs.Int.Signed.{lt_z};
ghost use Rattle.std.specs.Int.{w64};
ghost use Rattle.std.proofs.Common.{SFits};
ghost use Rattle.whole.specs.Ranges.{Within};
ghost use Rattle.series.specs.Series.{series};
ghost use Rattle.series.specs.Acceptance.{Accepted};
ghost use Rattle.inputs.specs.Inputs.{day_of_mark};
ghost use Rattle.turns.specs.Turns.{circle_of, turn_of, first_turn, turns_up_to};
ghost use Rattle.turns.specs.Listed.{turn_index_of, turns_by};
ghost use Rattle.turns.specs.Searched.{turns_in, Searched};

use series::Body;
use times::{Day, Second};
use whole::inner::{add, distance, floor_mod, signed, subtract};

// The turns of a series: the index of the first, and how many there are.
#[derive(Clone, Copy)]
pub struct TurnList {
    pub first: i64,
    pub count: usize,
}

// How many marks a circle has.
// Kept: a number for each body in one line; a record of all such numbers would be made for one of its fields.
fn circle(body: Body) -> usize
    ensures { result ≡ circle_of body }
{
    match body {
        Body::Sun => 24,
        Body::Moon => 4,
    }
}

// What a turn's index leaves, divided by the circle.
// Kept: a number for each body in one line; a record of all such numbers would be made for one of its fields.
fn turn(body: Body) -> i64
    ensures { result ≡ pos (turn_of body) }
{
    match body {
        Body::Sun => 18,
        Body::Moon => 0,
    }
}

// The index of the first turn behind `lowest`.
fn first_turn(body: Body, lowest: i64) -> i64
    requires { Within 1000100000000000 lowest }
    ensures { result ≡ first_turn body lowest }
{
    let next = add(lowest, 1);
    let gap = floor_mod(subtract(turn(body), next), signed(circle(body)));
    add(next, gap)
}

// How many turns there are from the first to `highest`.
fn turns_up_to(body: Body, first: i64, highest: i64) -> usize
    requires within { Within 1000200000000000 first }
    requires within_2 { Within 1000200000000000 highest }
    ensures { result ≡ turns_up_to body first highest }
{
    if highest < first {
        return 0;
    }
    distance(first, highest) / circle(body) + 1
}

// The turns that a series lists.
pub fn turns_of(body: Body, start: Second, coefs: &[i64]) -> TurnList
    requires { Accepted (series body start.0 coefs.now) }
    ensures { result ≡ turns_in (series body start.0 coefs.now) }
{
    let lowest = finder::inner::first_reached(body, start, coefs);
    let first = first_turn(body, lowest);
    let highest = finder::inner::last_reached(body, start, coefs);
    let count = turns_up_to(body, first, highest);
    TurnList { first, count }
}

// The index of the k-th turn.
pub fn turn_index(body: Body, first: i64, k: usize) -> i64
    requires k_bound { circle_of body * k < 2 ^ 63 }
    requires sfits { SFits w64 (first +ℤ pos (circle_of body * k)) }
    ensures { result ≡ first +ℤ pos (circle_of body * k) }
{
    add(first, signed(circle(body) * k))
}

// Whether a day comes before another.
fn comes_before(day: Day, other: Day) -> bool
    ensures { result ≡ lt_z day.0 other.0 }
{
    day.0 < other.0
}

// The day of the k-th turn.
pub fn day_of_turn(
    leap: &[i64],
    body: Body,
    start: Second,
    coefs: &[i64],
    zone: i64,
    turns: TurnList,
    k: usize,
) -> Day
    requires searched { Searched leap.now (series body start.0 coefs.now) zone turns }
    requires k_lt_count { k < turns.count }
    ensures { result ≡ day_of_mark leap.now (series body start.0 coefs.now) zone (turn_index_of (series body start.0 coefs.now) k) }
{
    let index = turn_index(body, turns.first, k);
    inputs::inner::day_of_mark(leap, body, start, coefs, index, zone)
}

// How many turns have a day that is not after `day`. Days rise with the index: it halves what is left.
pub fn turns_by(
    leap: &[i64],
    body: Body,
    start: Second,
    coefs: &[i64],
    zone: i64,
    turns: TurnList,
    day: Day,
) -> usize
    requires { Searched leap.now (series body start.0 coefs.now) zone turns }
    ensures { result ≡ turns_by leap.now (series body start.0 coefs.now) zone day.0 }
{
    let mut low: usize = 0;
    let mut high: usize = turns.count;
    // Kept: a bisection by hand, since a day is found when it is asked for, and `partition_point` needs a slice that holds them all.
    while low < high {
        let middle = low + (high - low) / 2;
        let here = day_of_turn(leap, body, start, coefs, zone, turns, middle);
        if comes_before(day, here) {
            high = middle;
        } else {
            low = middle + 1;
        }
    }
    low
}

// Whether k + 1 turns have a day that is not after `day`: turn k has, and no further one.
pub fn one_more(
    leap: &[i64],
    body: Body,
    start: Second,
    coefs: &[i64],
    zone: i64,
    turns: TurnList,
    k: usize,
    day: Day,
) -> bool
    requires { Searched leap.now (series body start.0 coefs.now) zone turns }
    ensures { result ≡ eqb (turns_by leap.now (series body start.0 coefs.now) zone day.0) (k + 1) }
{
    let count = turns.count;
    if count <= k {
        return false;
    }
    let here = day_of_turn(leap, body, start, coefs, zone, turns, k);
    if comes_before(day, here) {
        return false;
    }
    if count <= k + 1 {
        return true;
    }
    let next = day_of_turn(leap, body, start, coefs, zone, turns, k + 1);
    comes_before(day, next)
}
