// From an answer to the nine words of its record, and into the caller's.
ghost use Rattle.std.specs.Prelude.{◌≡◌, ◌^◌, ◌<◌, ℕ, ℤ, List, pos, get_or};
ghost use Rattle.refusals.specs.Verdict.{answered, refusal, refusal_segment, paper};
ghost use Rattle.answers.specs.Record.{record_of, no_numbers, date_numbers, day_numbers, milli_numbers, shown_numbers, value_numbers, served_numbers, count_numbers, file_numbers, rebuilt_numbers};
ghost use Rattle.answers.specs.Months.{sui_numbers};
ghost use Rattle.answers.specs.Fits.{Fits, none, itself, shown_size, sui_size, file_size, served_size, rebuilt_size};

use almanac::Counts;
use clock::ShownTime;
use dates::Date;
use months::Sui;
use rebuilt::Rebuilt;
use refusals::Refusal;
use served::{Served, Side};
use times::{Day, Milli};
use whole::inner::signed;

// An answer whose numbers stand in the record.
pub trait Numbers {
    // Its counts: they must fit a word.
    ghost size: { Self → ℕ };

    ghost numbers: { Self → List ℤ };

    // Its record: two zeros, its numbers, and zeros.
    fn words(self) -> [i64; 9]
        requires { size self < 2 ^ 63 }
        ensures { result ≡ record_of (answered self) numbers };
}

// A judge's answer has none.
impl Numbers for () {
    ghost size = { none };

    ghost numbers = { no_numbers };

    fn words(self) -> [i64; 9] {
        [0; 9]
    }
}

impl Numbers for Date {
    ghost size = { none };

    ghost numbers = { date_numbers };

    fn words(self) -> [i64; 9] {
        [0, 0, self.year, self.month, self.day, 0, 0, 0, 0]
    }
}

impl Numbers for Day {
    ghost size = { none };

    ghost numbers = { day_numbers };

    fn words(self) -> [i64; 9] {
        [0, 0, self.0, 0, 0, 0, 0, 0, 0]
    }
}

impl Numbers for Milli {
    ghost size = { none };

    ghost numbers = { milli_numbers };

    fn words(self) -> [i64; 9] {
        [0, 0, self.0, 0, 0, 0, 0, 0, 0]
    }
}

// Date, hour, minute, second and millisecond.
impl Numbers for ShownTime {
    ghost size = { shown_size };

    ghost numbers = { shown_numbers };

    fn words(self) -> [i64; 9] {
        let date = self.date;
        let hour = signed(self.hour as usize);
        let minute = signed(self.minute as usize);
        let second = signed(self.second as usize);
        let millisecond = signed(self.millisecond as usize);
        [
            0,
            0,
            date.year,
            date.month,
            date.day,
            hour,
            minute,
            second,
            millisecond,
        ]
    }
}

// The value of a series.
impl Numbers for i64 {
    ghost size = { none };

    ghost numbers = { value_numbers };

    fn words(self) -> [i64; 9] {
        [0, 0, self, 0, 0, 0, 0, 0, 0]
    }
}

// Which of two series serves, near 0 and long 1, and by which segment.
impl Numbers for Served {
    ghost size = { served_size };

    ghost numbers = { served_numbers };

    fn words(self) -> [i64; 9] {
        let side = match self.side {
            Side::Near => 0,
            Side::Long => 1,
        };
        let segment = signed(self.segment);
        [0, 0, side, segment, 0, 0, 0, 0, 0]
    }
}

// How many marks or bytes.
impl Numbers for usize {
    ghost size = { itself };

    ghost numbers = { count_numbers };

    fn words(self) -> [i64; 9] {
        let count = signed(self);
        [0, 0, count, 0, 0, 0, 0, 0, 0]
    }
}

// How many months.
impl Numbers for Sui {
    ghost size = { sui_size };

    ghost numbers = { sui_numbers };

    fn words(self) -> [i64; 9] {
        let count = signed(self.count);
        [0, 0, count, 0, 0, 0, 0, 0, 0]
    }
}

// Leap entries, suis and months.
impl Numbers for Counts {
    ghost size = { file_size };

    ghost numbers = { file_numbers };

    fn words(self) -> [i64; 9] {
        let entries = signed(self.entries);
        let suis = signed(self.suis);
        let months = signed(self.months);
        [0, 0, entries, suis, months, 0, 0, 0, 0]
    }
}

// Bytes of the new file, and years listed.
impl Numbers for Rebuilt {
    ghost size = { rebuilt_size };

    ghost numbers = { rebuilt_numbers };

    fn words(self) -> [i64; 9] {
        let bytes = signed(self.bytes);
        let years = signed(self.years);
        [0, 0, bytes, years, 0, 0, 0, 0, 0]
    }
}

// A refusal: its number, its segment, and zeros.
fn refused(r: Refusal) -> [i64; 9]
    requires { refusal_segment r < 2 ^ 63 }
    ensures { result ≡ record_of (refusal r) no_numbers }
{
    let number = i64::from(r.number());
    let segment = signed(r.segment());
    [number, segment, 0, 0, 0, 0, 0, 0, 0]
}

// The record of an answer or a refusal.
pub fn record<T: Numbers>(found: Result<T, Refusal>) -> [i64; 9]
    requires { Fits T.size (paper found) }
    ensures { result ≡ record_of (paper found) T.numbers }
{
    match found {
        Ok(answer) => answer.words(),
        Err(r) => refused(r),
    }
}

// Into the caller's record, and its number.
pub fn tell(words: [i64; 9], answer: &mut [i64; 9]) -> i64
    ensures value { result ≡ get_or words 0 (pos 0) }
    ensures answer_after { answer.new ≡ words }
{
    *answer = words;
    words[0]
}
