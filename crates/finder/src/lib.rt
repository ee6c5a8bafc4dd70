// The finder: how many marks a series has, and their list. Definitions, examples and theorems are those of `marks`.
#![tactic(auto)]

ghost use Rattle.std.specs.Prelude.{◌≡◌, length};
ghost use Rattle.refusals.specs.Verdict.{paper};
ghost use Rattle.series.specs.Series.{series};
ghost use Rattle.series.specs.Acceptance.{Accepted};
ghost use Rattle.marks.specs.Words.{mark_words};
ghost use Rattle.marks.specs.Stretch.{StretchOf};
ghost use Rattle.marks.specs.Listed.{marks_between};
ghost use Rattle.refusals.specs.Lent.{written_into};
ghost use Rattle.marks.specs.Answers.{counted_marks, listed_into, words_listed};

use refusals::Refusal;
use series::Body;
use times::Second;

pub mod inner;

// Fills `out` with the marks of the stretch from lo to hi, given the indices at its ends: none where they are one, the mark of two neighbouring seconds, else those of
// its two halves in turn.
fn find(
    body: Body,
    start: Second,
    coefs: &[i64],
    lo: Second,
    hi: Second,
    lowest: i64,
    highest: i64,
    out: &mut [i64],
)
    requires accepted { Accepted (series body start.0 coefs.now) }
    requires stretch_of { StretchOf (series body start.0 coefs.now) lo.0 hi.0 lowest highest (length out.old) }
    ensures { out.new ≡ mark_words (marks_between (series body start.0 coefs.now) lo.0 hi.0) }
{
    if lowest == highest {
        return;
    }
    let from = lo.0;
    let to = hi.0;
    let seconds = whole::inner::distance(from, to);
    if seconds == 1 {
        out[0] = highest;
        out[1] = to;
        return;
    }
    let mid = Second(whole::inner::middle(from, to));
    let between = inner::index_at(body, start, coefs, mid);
    let count = whole::inner::distance(lowest, between);
    let k = 2 * count;
    find(body, start, coefs, lo, mid, lowest, between, &mut out[..k]);
    find(body, start, coefs, mid, hi, between, highest, &mut out[k..]);
}

// The number of marks of a series.
pub fn count_marks(body: Body, start: Second, coefs: &[i64]) -> Result<usize, Refusal>
    ensures { paper result ≡ counted_marks (series body start.0 coefs.now) }
{
    acceptance::accept(body, start, coefs)?;
    Ok(inner::count(body, start, coefs))
}

// What a listing into so many words answers, before anything is written.
fn plan(body: Body, start: Second, coefs: &[i64], room: usize) -> Result<usize, Refusal>
    ensures { paper result ≡ listed_into (series body start.0 coefs.now) room }
{
    acceptance::accept(body, start, coefs)?;
    let marks = inner::count(body, start, coefs);
    if room / 2 < marks {
        return Err(Refusal::Room);
    }
    Ok(marks)
}

// The marks of a series in time order, from the start of `out` on: two words to a mark, its index and its second.
pub fn list_marks(
    body: Body,
    start: Second,
    coefs: &[i64],
    out: &mut [i64],
) -> Result<usize, Refusal>
    ensures result_value { paper result ≡ listed_into (series body start.0 coefs.now) (length out.old) }
    ensures out_after { out.new ≡ written_into (listed_into (series body start.0 coefs.now) (length out.old)) (words_listed (series body start.0 coefs.now)) out.old }
{
    let count = plan(body, start, coefs, out.len())?;
    let last = acceptance::inner::last_second(body, start, coefs);
    let lowest = inner::first_reached(body, start, coefs);
    let highest = inner::last_reached(body, start, coefs);
    let needed = 2 * count;
    find(
        body,
        start,
        coefs,
        start,
        last,
        lowest,
        highest,
        &mut out[..needed],
    );
    Ok(count)
}
