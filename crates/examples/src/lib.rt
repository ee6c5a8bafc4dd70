// Document 01's starred examples, evaluated inside the proof: `specs/Starred.antt`. Nothing here runs.
#![tactic(auto)]
