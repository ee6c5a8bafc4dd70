// A refusal, by document 01's table.
#![tactic(auto)]

ghost use Rattle.std.specs.Prelude.{◌≡◌};
ghost use Rattle.refusals.specs.Verdict.{refusal_number, refusal_segment};

use std::error::Error;
use std::fmt;

// Why an entry point refuses. A segment is counted from 0; 3 to 5 name the first such one.
#[derive(Clone, Copy, Debug, PartialEq, Eq)]
pub enum Refusal {
    // 1: the leap table breaks its rule.
    LeapTable,
    // 2: coefficient count not a multiple of 14, none, too many, or start out of range.
    Shape,
    // 3: a coefficient out of range.
    Coefficient(usize),
    // 4: a segment rises too slowly.
    TooSlow(usize),
    // 5: a joint outside 200 to 100,000.
    Joint(usize),
    // 6: second outside the span or the conversion range, day outside its range, or no such date.
    Outside,
    // 7: an instant before the first leap entry.
    TooEarly,
    // 8: Y out of range, count of suis outside 1 to 128, a solstice missing or doubled, a new moon missing, or day lists break their rule.
    NoSui,
    // 9: sui has neither 12 nor 13 months.
    MonthCount,
    // 10: a month not 29 or 30 days. 11 is withdrawn: of thirteen months one has no zhongqi (`thirteen_months_one_without` of `months`).
    MonthLength,
    // 12: lent room too small.
    Room,
    // 13: file, program input or list to be written breaks its layout.
    Layout,
    // 15: zone out of range.
    Zone,
    // 18, in place of 6: neither of two series covers the second.
    NotCovered,
}

// As the programs say it behind an R: its number, and the segment that it names.
impl fmt::Display for Refusal {
    fn fmt<W: fmt::Write>(&self, f: &mut fmt::Formatter<W>) -> fmt::Result {
        match self {
            Refusal::Coefficient(k) | Refusal::TooSlow(k) | Refusal::Joint(k) => {
                write!(f, "{} {k}", self.number())
            }
            _ => write!(f, "{}", self.number()),
        }
    }
}

impl Error for Refusal {}

impl Refusal {
    // Its number.
    pub fn number(self) -> u8
        ensures { result ≡ refusal_number self }
    {
        match self {
            Refusal::LeapTable => 1,
            Refusal::Shape => 2,
            Refusal::Coefficient(_) => 3,
            Refusal::TooSlow(_) => 4,
            Refusal::Joint(_) => 5,
            Refusal::Outside => 6,
            Refusal::TooEarly => 7,
            Refusal::NoSui => 8,
            Refusal::MonthCount => 9,
            Refusal::MonthLength => 10,
            Refusal::Room => 12,
            Refusal::Layout => 13,
            Refusal::Zone => 15,
            Refusal::NotCovered => 18,
        }
    }

    // The segment that it names, or zero.
    pub fn segment(self) -> usize
        ensures { result ≡ refusal_segment self }
    {
        match self {
            Refusal::Coefficient(k) | Refusal::TooSlow(k) | Refusal::Joint(k) => k,
            _ => 0,
        }
    }
}
