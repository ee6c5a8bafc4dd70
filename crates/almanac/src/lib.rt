// The almanac file as records, and on paper (`specs/`): the bytes of a content, which files are read, with examples and theorems (document 01, "Almanac file").
// Nothing here runs: the functions are those of `reader` and `writer`.
#![tactic(auto)]

// How many leap entries, suis and months a file has.
#[derive(Clone, Copy)]
pub struct Counts {
    pub entries: usize,
    pub suis: usize,
    pub months: usize,
}
