// Filling the index of a recorded run: its bases, its additions, and a second index that is merged into it.
#![tactic(auto)]

pub mod inner;
