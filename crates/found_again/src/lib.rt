// What is added is found again: no call, but the laws of a search for a vector whose id is in the face sets of its own face, as it is right after an addition and after
// later additions and merges.
#![tactic(auto)]

ghost use Rattle.found_again.specs.Laws.{Laws};

// The laws of this crate, claimed: specs/Laws.antt says each of them.
pub fn laws()
    ensures { Laws }
{}
