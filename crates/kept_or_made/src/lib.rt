// The suis of consecutive years for a rebuild: where the days of a sui are the old ones its months are copied from the old file, else they are made.
#![tactic(auto)]

pub mod inner;
