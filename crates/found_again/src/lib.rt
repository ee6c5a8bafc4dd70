// The days ahead of suis under corrected inputs, by those that were found before the correction: a mark that it cannot have moved keeps its day.
#![tactic(auto)]

pub mod inner;
