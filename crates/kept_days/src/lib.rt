// The days ahead of suis once more, where those from before a correction are known: of marks that it has not moved they are kept.
#![tactic(auto)]

pub mod inner;
