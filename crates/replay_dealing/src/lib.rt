// Additions to the index of a recorded run, to it alone or dealt to two indexes that are then merged.
#![tactic(auto)]

pub mod inner;
