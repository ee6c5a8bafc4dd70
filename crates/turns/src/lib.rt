// The marks that come once a circle: the Sun's winter solstices and the Moon's new moons, by their places among the listed marks. For builds.
#![tactic(auto)]

pub mod inner;
