// The second of a listed mark by its index, and the k-th listed mark.
ghost use Rattle.std.specs.Prelude.{◌≡◌, ◌<◌, pos, ◌*ℤ◌, ◌≤ℤ◌, ◌<ℤ◌, length, get_or};
ghost use Rattle.std.specs.Int.{w64};
ghost use Rattle.std.proofs.Common.{SFits};
ghost use Rattle.whole.specs.Ranges.{Within};
ghost use Rattle.series.specs.Bodies.{numbers};
ghost use Rattle.series.specs.Series.{series};
ghost use Rattle.series.specs.Acceptance.{Accepted};
ghost use Rattle.marks.specs.Listed.{listed_marks, first_reached, last_reached, second_of_mark};
ghost use Rattle.marks.specs.Stretch.{BracketOf, Around, Enclosed};
ghost use Rattle.marks.specs.Answers.{mark_of, no_mark};

use crate::looks;
use crate::looks::Looked;
use acceptance::inner::mark_size;
use finder::inner::first_reached;
use marks::ListedMark;
use series::Body;
use times::Second;

// The value of a mark.
pub fn mark_value(body: Body, index: i64) -> i64
    requires { SFits w64 (index *ℤ pos (numbers body).mark_size) }
    ensures { result ≡ index *ℤ pos (numbers body).mark_size }
{
    whole::inner::multiply(index, mark_size(body))
}

// The second of a listed mark, by its index, between two seconds of which the first is under it and the second has reached it, given the values there. It looks by
// proportion, and halves after each guess that left more than half.
pub fn locate_between(
    body: Body,
    start: Second,
    coefs: &[i64],
    index: i64,
    lo: Second,
    hi: Second,
    below: i64,
    above: i64,
) -> Second
    requires accepted { Accepted (series body start.0 coefs.now) }
    requires bracket_of { BracketOf (series body start.0 coefs.now) index lo.0 hi.0 below above }
    ensures { result.0 ≡ second_of_mark (series body start.0 coefs.now) index }
{
    let target = mark_value(body, index);
    let mut from = lo.0;
    let mut to = hi.0;
    let mut under = below;
    let mut over = above;
    let mut left = whole::inner::distance(from, to);
    let mut halve = false;
    while left > 1 {
        let step = guess::inner::seconds_on(
            halve,
            whole::inner::distance(under, target),
            whole::inner::distance(under, over),
            left,
        );
        let middle = whole::inner::add(from, whole::inner::signed(step));
        let value = acceptance::inner::value(body, start, coefs, Second(middle));
        if value < target {
            from = middle;
            under = value;
        } else {
            to = middle;
            over = value;
        }
        let rest = whole::inner::distance(from, to);
        halve = guess::inner::halve_next(halve, left, rest);
        left = rest;
    }
    Second(to)
}

// The same, given no values. Two neighbouring seconds need none.
fn settle(body: Body, start: Second, coefs: &[i64], index: i64, around: Looked) -> Second
    requires accepted { Accepted (series body start.0 coefs.now) }
    requires around { Around (series body start.0 coefs.now) index around.lo around.hi }
    ensures { result.0 ≡ second_of_mark (series body start.0 coefs.now) index }
{
    let lo = around.lo;
    let hi = around.hi;
    if whole::inner::distance(lo, hi) == 1 {
        return Second(hi);
    }
    let below = acceptance::inner::value(body, start, coefs, Second(lo));
    let above = acceptance::inner::value(body, start, coefs, Second(hi));
    locate_between(
        body,
        start,
        coefs,
        index,
        Second(lo),
        Second(hi),
        below,
        above,
    )
}

// The same, by a look at the second that is thought to be the mark's and at the one before it.
fn confirm(
    body: Body,
    start: Second,
    coefs: &[i64],
    index: i64,
    around: Looked,
    mark: i64,
) -> Second
    requires accepted { Accepted (series body start.0 coefs.now) }
    requires around { Around (series body start.0 coefs.now) index around.lo around.hi }
    requires within { Within 2000000000000000000 mark }
    ensures { result.0 ≡ second_of_mark (series body start.0 coefs.now) index }
{
    let before = looks::look(body, start, coefs, index, around, mark - 1);
    let both = looks::look(body, start, coefs, index, before, mark);
    settle(body, start, coefs, index, both)
}

// The second of a listed mark, by its index: a look where the coefficients say, and then at two seconds side by side.
pub fn locate(body: Body, start: Second, coefs: &[i64], index: i64) -> Second
    requires accepted { Accepted (series body start.0 coefs.now) }
    requires coefs_bound { first_reached (series body start.0 coefs.now) <ℤ index }
    requires index_bound { index ≤ℤ last_reached (series body start.0 coefs.now) }
    ensures { result.0 ≡ second_of_mark (series body start.0 coefs.now) index }
{
    let target = mark_value(body, index);
    let near = looks::second_for(body, start, coefs, target);
    let span = looks::span(body, start, coefs);
    let there = looks::look(body, start, coefs, index, span, near.at);
    let mark = looks::thought(body, near, there);
    confirm(body, start, coefs, index, there, mark)
}

// Two seconds: a mark's comes after the first, and by the second.
#[derive(Clone, Copy)]
pub struct Enclosing {
    pub after: i64,
    pub by: i64,
}

// Encloses the second of a listed mark, by its index, with one look where the coefficients say. That is enough to tell the day of most marks.
pub fn enclose(body: Body, start: Second, coefs: &[i64], index: i64) -> Enclosing
    requires accepted { Accepted (series body start.0 coefs.now) }
    requires coefs_bound { first_reached (series body start.0 coefs.now) <ℤ index }
    requires index_bound { index ≤ℤ last_reached (series body start.0 coefs.now) }
    ensures { Enclosed (series body start.0 coefs.now) index result.after result.by }
{
    let target = mark_value(body, index);
    let near = looks::second_for(body, start, coefs, target);
    let at = near.at;
    let value = acceptance::inner::value(body, start, coefs, Second(at));
    let on = whole::inner::add(at, looks::seconds_on(target, value));
    if target <= value {
        return Enclosing {
            after: whole::inner::subtract(on, 1),
            by: at,
        };
    }
    let last = acceptance::inner::last_second(body, start, coefs);
    let end = last.0;
    if end <= on {
        return Enclosing { after: at, by: end };
    }
    Enclosing {
        after: at,
        by: whole::inner::add(on, 1),
    }
}

// The k-th listed mark, counted from 0, given how many marks are reached at the first second: it is the same for all of them.
pub fn nth_after(body: Body, start: Second, coefs: &[i64], lowest: i64, k: usize) -> ListedMark
    requires accepted { Accepted (series body start.0 coefs.now) }
    requires lowest_value { lowest ≡ first_reached (series body start.0 coefs.now) }
    requires k_in_bounds { k < length (listed_marks (series body start.0 coefs.now)) }
    ensures { mark_of result ≡ get_or (listed_marks (series body start.0 coefs.now)) k no_mark }
{
    let next = whole::inner::add(lowest, 1);
    let index = whole::inner::add(next, whole::inner::signed(k));
    let second = locate(body, start, coefs, index);
    ListedMark { index, second }
}

// The k-th listed mark, counted from 0.
pub fn nth_mark(body: Body, start: Second, coefs: &[i64], k: usize) -> ListedMark
    requires accepted { Accepted (series body start.0 coefs.now) }
    requires k_in_bounds { k < length (listed_marks (series body start.0 coefs.now)) }
    ensures { mark_of result ≡ get_or (listed_marks (series body start.0 coefs.now)) k no_mark }
{
    let lowest = first_reached(body, start, coefs);
    nth_after(body, start, coefs, lowest, k)
}
