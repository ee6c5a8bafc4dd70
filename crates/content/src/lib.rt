// What an almanac file holds, and which contents are lawful.
#![tactic(auto)]

pub mod inner;
mod listed;
mod month;
