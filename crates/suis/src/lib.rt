// One sui after another, from accepted inputs: the days of solstices and new moons are found once, ahead of the suis that share them. For builds of many suis.
#![tactic(auto)]

mod finding;
pub mod inner;
