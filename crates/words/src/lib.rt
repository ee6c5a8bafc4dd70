// Signed little-endian words in bytes.
#![tactic(auto)]

pub mod inner;
