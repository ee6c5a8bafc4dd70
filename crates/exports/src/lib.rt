// The C interface (include/hazomekyu.h): each function calls one entry point, writes what it answered into the caller's record, and returns the record's number.
#![tactic(auto)]

pub mod file;
pub mod lunar;
pub mod sky;
pub mod time;
