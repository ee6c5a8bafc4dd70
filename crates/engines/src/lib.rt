// The two engines that list marks, side by side: `specs/WalkIsFinder.antt`. Nothing here runs.
#![tactic(auto)]
