// The three counts of time (document 01): each its own kind, so that one is never handed over where another is expected.
#![tactic(auto)]

// A TDB second, counted from 2000-01-01 00:00:00 TDB.
#[derive(Clone, Copy)]
pub struct Second(pub i64);

// A UTC+8 millisecond, counted from 2000-01-01 00:00 UTC+8; of another zone, from that moment there.
#[derive(Clone, Copy)]
pub struct Milli(pub i64);

// A day number: the days from 2000-01-01.
#[derive(Clone, Copy)]
pub struct Day(pub i64);
