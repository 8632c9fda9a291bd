// What the recorded index runs are made of: the generator that their inputs are drawn by, and the digests of their memories.
#![tactic(auto)]

pub mod inner;
