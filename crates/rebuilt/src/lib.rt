// The rebuild as a record, and on paper (`specs/`): the file of the old file's years from corrected inputs, and the years of the suis that are kept (document 02, order 1),
// with examples and theorems. Nothing here runs: the functions are those of `rebuild`.
#![tactic(auto)]

// The years of a file: the first, and how many.
#[derive(Clone, Copy)]
pub struct Years {
    pub first: i64,
    pub count: usize,
}

// How many bytes the new file has, and how many years were listed.
#[derive(Clone, Copy)]
pub struct Rebuilt {
    pub bytes: usize,
    pub years: usize,
}
