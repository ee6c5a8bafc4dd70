// The plain walk: the marks of a series, by visiting every second of its span. Of the finder it knows nothing; they share what judges a series and what gives its
// value at a second. That both give the same is `walk_is_finder` (`engines/specs/WalkIsFinder.antt`).
#![tactic(auto)]

ghost use Rattle.std.specs.Prelude.{◌≡◌, ◌++◌, ◌*◌, ◌≤◌, length, drop};
ghost use Rattle.refusals.specs.Verdict.{paper};
ghost use Rattle.refusals.specs.Lent.{written_into};
ghost use Rattle.series.specs.Series.{series, InSpan};
ghost use Rattle.series.specs.Acceptance.{Accepted};
ghost use Rattle.marks.specs.Listed.{listed_marks, reached_at};
ghost use Rattle.marks.specs.Words.{mark_words};
ghost use Rattle.marks.specs.Answers.{listed_into, words_listed};

use acceptance::inner::{last_second, mark_size};
use refusals::Refusal;
use series::Body;
use times::Second;

// How many marks the value at a second has reached.
fn reached_at(body: Body, start: Second, coefs: &[i64], second: i64) -> i64
    requires accepted { Accepted (series body start.0 coefs.now) }
    requires in_span { InSpan (series body start.0 coefs.now) second }
    ensures { result ≡ reached_at (series body start.0 coefs.now) second }
{
    let value = acceptance::inner::value(body, start, coefs, Second(second));
    whole::inner::floor_div(value, mark_size(body))
}

// How many seconds have reached more marks than the second before: in both loops, `before` has reached `reached`.
fn count(body: Body, start: Second, coefs: &[i64]) -> usize
    requires { Accepted (series body start.0 coefs.now) }
    ensures { result ≡ length (listed_marks (series body start.0 coefs.now)) }
{
    let last = last_second(body, start, coefs);
    let end = last.0;
    let mut reached = reached_at(body, start, coefs, start.0);
    let mut marks: usize = 0;
    for before in start.0..end {
        let second = before + 1;
        let index = reached_at(body, start, coefs, second);
        if reached < index {
            marks += 1;
        }
        reached = index;
    }
    marks
}

// At each second: if the value has reached more marks than the second before, writes the index and the second.
fn write(body: Body, start: Second, coefs: &[i64], out: &mut [i64])
    requires accepted { Accepted (series body start.0 coefs.now) }
    requires coefs_in_bounds { 2 * length (listed_marks (series body start.0 coefs.now)) ≤ length out.old }
    ensures { out.new ≡ mark_words (listed_marks (series body start.0 coefs.now)) ++ drop (2 * length (listed_marks (series body start.0 coefs.now))) out.old }
{
    let last = last_second(body, start, coefs);
    let end = last.0;
    let mut reached = reached_at(body, start, coefs, start.0);
    let mut at: usize = 0;
    for before in start.0..end {
        let second = before + 1;
        let index = reached_at(body, start, coefs, second);
        if reached < index {
            out[at] = index;
            out[at + 1] = second;
            at += 2;
        }
        reached = index;
    }
}

// The marks of a series in time order, from the start of `out` on: two words to a mark, its index and its second.
pub fn list_marks(
    body: Body,
    start: Second,
    coefs: &[i64],
    out: &mut [i64],
) -> Result<usize, Refusal>
    ensures result_value { paper result ≡ listed_into (series body start.0 coefs.now) (length out.old) }
    ensures out_after { out.new ≡ written_into (listed_into (series body start.0 coefs.now) (length out.old)) (words_listed (series body start.0 coefs.now)) out.old }
{
    acceptance::accept(body, start, coefs)?;
    let marks = count(body, start, coefs);
    if out.len() / 2 < marks {
        return Err(Refusal::Room);
    }
    write(body, start, coefs, out);
    Ok(marks)
}
