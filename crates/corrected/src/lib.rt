// What a corrected series shares with the one before it: segments and joints that need no second judgement, and marks that keep their second.
#![tactic(auto)]

mod comparing;
pub mod inner;
mod judging;
mod reaching;
