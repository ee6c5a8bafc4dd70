// The new file of a rebuild and the years of the suis that are kept: both are written, or neither.
#![tactic(auto)]

pub mod inner;
