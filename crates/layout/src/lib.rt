// The words that programs read: a leap table, the Sun and the Moon, one section behind the other.
#![tactic(auto)]

pub mod inner;
