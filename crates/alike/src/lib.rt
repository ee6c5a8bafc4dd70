// Whether two lists are the same, words or bytes.
#![tactic(auto)]

pub mod inner;
mod runs;
