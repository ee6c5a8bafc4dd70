// One segment of a series, worked out: the value at a place, and how fast it rises. Definitions and theorems are those of `chebyshev`.
#![tactic(auto)]

pub mod inner;
