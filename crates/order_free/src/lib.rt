// Order-freedom. What holds for every list of additions and every tree of merges is proved of the definitions that the calls' contracts cite: see
// specs/Order.antt, specs/Grown.antt and specs/Laws.antt.
// The functions of `inner` make the calls themselves, and what they promise follows from the calls' contracts and those laws alone.
#![tactic(auto)]

ghost use Rattle.order_free.specs.Laws.{Laws};

pub mod inner;

// The laws of this crate, claimed: specs/Laws.antt says each of them.
pub fn laws()
    ensures { Laws }
{}
