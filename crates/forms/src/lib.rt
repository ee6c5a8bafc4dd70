// The named form of a series: its start second and its lent coefficients travel as one thing. The functions over it take it apart and call the entry point over start and
// coefficients, and promise what that entry point does.
#![tactic(auto)]

ghost use Rattle.std.specs.Prelude.{◌≡◌, length};
ghost use Rattle.refusals.specs.Lent.{written_into};
ghost use Rattle.refusals.specs.Verdict.{paper};
ghost use Rattle.series.specs.Acceptance.{series_judged, value_of};
ghost use Rattle.marks.specs.Answers.{counted_marks, listed_into, words_listed};
ghost use Rattle.inputs.specs.Inputs.{inputs_judged};
ghost use Rattle.sui.specs.Sui.{sui_for};
ghost use Rattle.almanac.specs.Answers.{all_bytes};
ghost use Rattle.built.specs.Build.{bytes_built, file_built};
ghost use Rattle.records.specs.Records.{records_into, all_records, records_counted};
ghost use Rattle.forms.specs.Forms.{series_of, inputs_of};

use months::{Month, Sui};
use refusals::Refusal;
use series::Body;
use times::Second;

// A series of either body: its start second and its coefficients, fourteen a segment.
#[derive(Clone, Copy)]
pub struct Series<'a> {
    pub start: Second,
    pub coefs: &'a [i64],
}

// A start and coefficients as one thing.
pub fn series_of<'a>(start: Second, coefs: &'a [i64]) -> Series<'a>
    ensures { (result.start ≡ start) × (result.coefs ≡ coefs.entry) }
{
    Series { start, coefs }
}

// Accepts a series, or refuses it by 2, 3, 4 or 5.
pub fn accept<'a>(body: Body, given: Series<'a>) -> Result<(), Refusal>
    ensures { paper result ≡ series_judged (series_of body given.entry) }
{
    acceptance::accept(body, given.start, given.coefs)
}

// The value at a second, or a refusal by 2 to 5, or by 6 outside the span.
pub fn value_at<'a>(body: Body, given: Series<'a>, second: Second) -> Result<i64, Refusal>
    ensures { paper result ≡ value_of (series_of body given.entry) second.0 }
{
    acceptance::value_at(body, given.start, given.coefs, second)
}

// The number of marks of a series.
pub fn count_marks<'a>(body: Body, given: Series<'a>) -> Result<usize, Refusal>
    ensures { paper result ≡ counted_marks (series_of body given.entry) }
{
    finder::count_marks(body, given.start, given.coefs)
}

// The marks of a series in time order, from the start of `out` on: two words to a mark, its index and its second.
pub fn list_marks<'a>(body: Body, given: Series<'a>, out: &mut [i64]) -> Result<usize, Refusal>
    ensures result_value { paper result ≡ listed_into (series_of body given.entry) (length out.old) }
    ensures out_after { out.new ≡ written_into (listed_into (series_of body given.entry) (length out.old)) (words_listed (series_of body given.entry)) out.old }
{
    finder::list_marks(body, given.start, given.coefs, out)
}

// What every build begins with: accepts a leap table, a Sun and a Moon, or refuses by 1, by 2 to 5 for the Sun, then for the Moon, or by 7.
pub fn judge<'l, 'a, 'b>(leap: &'l [i64], sun: Series<'a>, moon: Series<'b>) -> Result<(), Refusal>
    ensures { paper result ≡ inputs_judged (inputs_of leap.now sun.entry moon.entry) }
{
    inputs::judge(leap, sun.start, sun.coefs, moon.start, moon.coefs)
}

// The months of sui `year`, by the days of a zone.
pub fn sui<'l, 'a, 'b>(
    leap: &'l [i64],
    sun: Series<'a>,
    moon: Series<'b>,
    zone: i64,
    year: i64,
) -> Result<Sui, Refusal>
    ensures { paper result ≡ sui_for (inputs_of leap.now sun.entry moon.entry) zone year }
{
    one_sui::sui(
        leap, sun.start, sun.coefs, moon.start, moon.coefs, zone, year,
    )
}

// The same in a lent list of records: both named forms at once.
pub fn sui_into<'l, 'a, 'b>(
    leap: &'l [i64],
    sun: Series<'a>,
    moon: Series<'b>,
    zone: i64,
    year: i64,
    out: &mut [Month],
) -> Result<usize, Refusal>
    ensures result_value { paper result ≡ records_counted (records_into (sui_for (inputs_of leap.now sun.entry moon.entry) zone year) (length out.old)) }
    ensures out_after { out.new ≡ written_into (records_into (sui_for (inputs_of leap.now sun.entry moon.entry) zone year) (length out.old)) all_records out.old }
{
    records::sui_into(
        leap, sun.start, sun.coefs, moon.start, moon.coefs, zone, year, out,
    )
}

// The almanac file of `count` suis from year `first` on, by the days of a zone, in a lent slice. Everything is judged before the first byte is written.
pub fn build<'l, 'a, 'b>(
    leap: &'l [i64],
    sun: Series<'a>,
    moon: Series<'b>,
    zone: i64,
    first: i64,
    count: i64,
    file: &mut [u8],
) -> Result<usize, Refusal>
    ensures result_value { paper result ≡ file_built (inputs_of leap.now sun.entry moon.entry) zone first count (length file.old) }
    ensures file_after { file.new ≡ written_into (bytes_built (inputs_of leap.now sun.entry moon.entry) zone first count (length file.old)) all_bytes file.old }
{
    build::build(
        leap, sun.start, sun.coefs, moon.start, moon.coefs, zone, first, count, file,
    )
}
