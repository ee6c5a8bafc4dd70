// The file build on paper (`specs/`): from leap table, Sun and Moon to an almanac file, with examples and theorems (document 01, "Almanac file" and the order of a build's
// refusals). Nothing here runs: the functions are those of `build`, and its answer is that of `almanac`.
#![tactic(auto)]
