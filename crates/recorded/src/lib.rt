// What the programs share that hold the port to recorded answers: reading cases and writing answers in the record's words.
#![tactic(auto)]

pub mod buffered;
pub mod inner;
