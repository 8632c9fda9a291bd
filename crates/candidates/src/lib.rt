// The candidates of a search: the first loop of find_nearest_internal (vector_store.rs). The target is projected on each basis, the face sets that
// the projection picks are joined to one set, and that set is merged into the counting layers.
#![tactic(auto)]

ghost use Rattle.candidates.specs.Laws.{Laws};

pub mod inner;

// The laws of this crate, claimed: specs/Laws.antt says each of them.
pub fn laws()
    ensures { Laws }
{}
