// The bytes of a line of the listing.
#![tactic(auto)]

pub mod inner;

// The numbers that a line shows, as counts.
#[derive(Clone, Copy)]
pub struct Moment {
    pub year: u64,
    pub month: u64,
    pub day: u64,
    pub hour: u64,
    pub minute: u64,
    pub second: u64,
    pub millisecond: u64,
}
