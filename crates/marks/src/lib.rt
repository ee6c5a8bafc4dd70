// Marks: the seconds at which a series' value reaches a multiple of a mark. Answers, and on paper (`specs/`) the defined list, examples and the theorems of demand 3.
// Nothing here runs: the functions are those of `finder` and `locator`.
#![tactic(auto)]

use times::Second;

// A listed mark: its index and its second.
#[derive(Clone, Copy)]
pub struct ListedMark {
    pub index: i64,
    pub second: Second,
}
