// From each answer to the nine words that C reads, and into the caller's record (`answers`).
#![tactic(auto)]

pub mod inner;
