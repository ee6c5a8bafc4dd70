// The analysis of one segment, on paper (`specs/`): bounds of its polynomials, the value against the exact sum, and how both rise (document 01, "Segments"). Nothing here
// runs.
#![tactic(auto)]
