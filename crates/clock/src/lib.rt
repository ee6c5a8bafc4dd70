// The clock as records, and on paper (`specs/`): leap tables, and from TDB seconds to the milliseconds, days and shown times of a zone (document 01, "Three counts of
// time"), with examples and theorems. Nothing here runs: the functions are those of `conversion`.
#![tactic(auto)]

use dates::Date;
use times::Milli;

// One reading of the clock: the count in the zone, and whether the second is an inserted one.
#[derive(Clone, Copy)]
pub struct Reading {
    pub milli: Milli,
    pub inserted: bool,
}

// A time as it is shown; the second is 60 inside an inserted one.
#[derive(Clone, Copy)]
pub struct ShownTime {
    pub date: Date,
    pub hour: u64,
    pub minute: u64,
    pub second: u64,
    pub millisecond: u64,
}
