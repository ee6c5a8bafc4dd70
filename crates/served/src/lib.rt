// Two series of one kind, a near and a long one, on paper (`specs/`): which of them serves a second, and which part of its coefficients covers it (order 13). Nothing here
// runs: the functions are those of `serving`.
#![tactic(auto)]

// "Two series, one near and one long."
#[derive(Clone, Copy, Debug, PartialEq, Eq)]
pub enum Side {
    Near,
    Long,
}

// Which of the two serves, and by which of its segments, counted from 0.
#[derive(Clone, Copy, Debug, PartialEq, Eq)]
pub struct Served {
    pub side: Side,
    pub segment: usize,
}
