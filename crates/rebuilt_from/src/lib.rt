// The rebuild from inputs of bytes, on paper (`specs/`): definitions, examples and theorems. Nothing here runs: the function is `rebuilding::rebuild_taken`.
#![tactic(auto)]
