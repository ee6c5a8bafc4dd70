// The locator: the second of one mark in three looks, without a list. What a mark is, `marks` says; what a guess is, `guess`.
#![tactic(auto)]

pub mod inner;
mod looks;
