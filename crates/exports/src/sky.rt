// Series and marks, and the inputs of a build.
ghost use Rattle.std.specs.Prelude.{◌≡◌, length};
ghost use Rattle.refusals.specs.Lent.{written_into};
ghost use Rattle.series.specs.Series.{series};
ghost use Rattle.series.specs.Acceptance.{series_judged, value_of};
ghost use Rattle.served.specs.Served.{serves};
ghost use Rattle.replacing.specs.Replaced.{segment_replaced, segment_checked, held_after};
ghost use Rattle.marks.specs.Answers.{counted_marks, listed_into, words_listed};
ghost use Rattle.inputs.specs.Inputs.{inputs, inputs_judged};
ghost use Rattle.answers.specs.Record.{number_of, record_of, no_numbers, value_numbers, served_numbers, count_numbers, body_of};

use answer_record::inner::record::{record, tell};
use series::Body;
use times::Second;

// Which body a flag says.
fn body_of(moon: bool) -> Body
    ensures { result ≡ body_of moon }
{
    if moon { Body::Moon } else { Body::Sun }
}

// Whether a series is accepted.
// Kept: the C interface names each.
#[unsafe(no_mangle)]
pub extern "C" fn hzk_accept(moon: bool, start: i64, coefs: &[i64], answer: &mut [i64; 9]) -> i64
    ensures value { result ≡ number_of (series_judged (series (body_of moon) start coefs.now)) }
    ensures answer_after { answer.new ≡ record_of (series_judged (series (body_of moon) start coefs.now)) no_numbers }
{
    tell(
        record(acceptance::accept(body_of(moon), Second(start), coefs)),
        answer,
    )
}

// The value of a series at a second.
#[unsafe(no_mangle)]
pub extern "C" fn hzk_value_at(
    moon: bool,
    start: i64,
    coefs: &[i64],
    second: i64,
    answer: &mut [i64; 9],
) -> i64
    ensures value { result ≡ number_of (value_of (series (body_of moon) start coefs.now) second) }
    ensures answer_after { answer.new ≡ record_of (value_of (series (body_of moon) start coefs.now) second) value_numbers }
{
    tell(
        record(acceptance::value_at(body_of(moon), Second(start), coefs, Second(second))),
        answer,
    )
}

// Which of two series of one kind serves a second, and by which segment.
#[unsafe(no_mangle)]
pub extern "C" fn hzk_serves(
    moon: bool,
    nearstart: i64,
    near: &[i64],
    longstart: i64,
    long: &[i64],
    second: i64,
    answer: &mut [i64; 9],
) -> i64
    ensures value { result ≡ number_of (serves (series (body_of moon) nearstart near.now) (series (body_of moon) longstart long.now) second) }
    ensures answer_after { answer.new ≡ record_of (serves (series (body_of moon) nearstart near.now) (series (body_of moon) longstart long.now) second) served_numbers }
{
    let served = serving::serves(
        body_of(moon),
        Second(nearstart),
        near,
        Second(longstart),
        long,
        Second(second),
    );
    tell(record(served), answer)
}

// The words of a lent part, by value: how many a result has is known, of a lent array it is not.
fn words_of(part: &[i64; 14]) -> [i64; 14]
    ensures { result ≡ part.now }
{
    *part
}

// Replaces one segment of a lent series.
#[unsafe(no_mangle)]
pub extern "C" fn hzk_replace_segment(
    moon: bool,
    start: i64,
    coefs: &mut [i64],
    number: usize,
    part: &[i64; 14],
    answer: &mut [i64; 9],
) -> i64
    ensures value { result ≡ number_of (segment_checked (series (body_of moon) start coefs.old) number part.now) }
    ensures answer_after { answer.new ≡ record_of (segment_checked (series (body_of moon) start coefs.old) number part.now) no_numbers }
    ensures coefs_after { coefs.new ≡ held_after (segment_replaced (series (body_of moon) start coefs.old) number part.now) coefs.old }
{
    let words = words_of(part);
    let replaced = replacing::replace_segment(body_of(moon), Second(start), coefs, number, words);
    tell(record(replaced), answer)
}

// How many marks a series lists.
// Kept: the C interface names each.
#[unsafe(no_mangle)]
pub extern "C" fn hzk_count_marks(
    moon: bool,
    start: i64,
    coefs: &[i64],
    answer: &mut [i64; 9],
) -> i64
    ensures value { result ≡ number_of (counted_marks (series (body_of moon) start coefs.now)) }
    ensures answer_after { answer.new ≡ record_of (counted_marks (series (body_of moon) start coefs.now)) count_numbers }
{
    tell(
        record(finder::count_marks(body_of(moon), Second(start), coefs)),
        answer,
    )
}

// Every mark of a series, into lent words.
#[unsafe(no_mangle)]
pub extern "C" fn hzk_list_marks(
    moon: bool,
    start: i64,
    coefs: &[i64],
    marks: &mut [i64],
    answer: &mut [i64; 9],
) -> i64
    ensures value { result ≡ number_of (listed_into (series (body_of moon) start coefs.now) (length marks.old)) }
    ensures answer_after { answer.new ≡ record_of (listed_into (series (body_of moon) start coefs.now) (length marks.old)) count_numbers }
    ensures marks_after { marks.new ≡ written_into (listed_into (series (body_of moon) start coefs.now) (length marks.old)) (words_listed (series (body_of moon) start coefs.now)) marks.old }
{
    let listed = finder::list_marks(body_of(moon), Second(start), coefs, marks);
    tell(record(listed), answer)
}

// The same list, by the plain walk.
#[unsafe(no_mangle)]
pub extern "C" fn hzk_walk_marks(
    moon: bool,
    start: i64,
    coefs: &[i64],
    marks: &mut [i64],
    answer: &mut [i64; 9],
) -> i64
    ensures value { result ≡ number_of (listed_into (series (body_of moon) start coefs.now) (length marks.old)) }
    ensures answer_after { answer.new ≡ record_of (listed_into (series (body_of moon) start coefs.now) (length marks.old)) count_numbers }
    ensures marks_after { marks.new ≡ written_into (listed_into (series (body_of moon) start coefs.now) (length marks.old)) (words_listed (series (body_of moon) start coefs.now)) marks.old }
{
    let listed = walk::list_marks(body_of(moon), Second(start), coefs, marks);
    tell(record(listed), answer)
}

// Whether a build takes its inputs.
#[unsafe(no_mangle)]
pub extern "C" fn hzk_judge_inputs(
    leap: &[i64],
    sunstart: i64,
    sun: &[i64],
    moonstart: i64,
    moon: &[i64],
    answer: &mut [i64; 9],
) -> i64
    ensures value { result ≡ number_of (inputs_judged (inputs leap.now sunstart sun.now moonstart moon.now)) }
    ensures answer_after { answer.new ≡ record_of (inputs_judged (inputs leap.now sunstart sun.now moonstart moon.now)) no_numbers }
{
    let judged = inputs::judge(leap, Second(sunstart), sun, Second(moonstart), moon);
    tell(record(judged), answer)
}
