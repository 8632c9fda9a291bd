// Questions to the index of a recorded run, and their answers in the words of the record.
#![tactic(auto)]

pub mod inner;
