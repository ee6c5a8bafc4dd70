// Where to look for a mark: guesses over a segment's coefficients and over a stretch's seconds. Nothing rests on a guess but how soon a mark is found.
#![tactic(auto)]

pub mod inner;
