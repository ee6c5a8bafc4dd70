// One segment of a series on paper (`specs/`): its polynomials, its value and its exact sum, with examples (document 01, "Segments"). Nothing here runs: what is proved of
// them is `analysis`, the functions are those of `evaluator`.
#![tactic(auto)]
