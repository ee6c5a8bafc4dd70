// The listing on paper (`specs/`): from the bytes of an input to its lines, with examples (document 01, "The listing program"). Nothing here runs: the functions are those
// of `listing`.
#![tactic(auto)]
