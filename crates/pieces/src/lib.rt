// An input that is read in pieces, of which only the words are kept. For programs.
#![tactic(auto)]

pub mod inner;
