// What an index is: the tests of geometry and lengths that its calls make before anything else, and making it empty (vector_store.rs's new).
// Face sets, marks and stored vectors are lent as three slices, here and above: a struct of the three would have each contract say that each slice is still the one that came in.
#![tactic(auto)]

ghost use Rattle.std.specs.Prelude.{◌≡◌, IfOk};
ghost use Rattle.paper.specs.Refusals.{code_of};
ghost use Rattle.index_memory.specs.Memory.{ix_of, own_refusal, done, empty_of, Sized};
ghost use Rattle.index_memory.specs.Laws.{Laws};

use paper::{Geometry, Refusal};

pub mod inner;

// Refuses 1 for a geometry out of range, then 2 for a wrong length of face sets, marks or stored vectors.
#[tactic(auto, unfolding(crate::specs::Memory::own_refusal), using(crate::proofs::Lengths::own_sized))]
pub fn check_own(g: Geometry, faces: usize, marks: usize, vectors: usize) -> Result<(), Refusal>
    ensures told { code_of result ≡ own_refusal g.d g.n g.cap g.mode faces marks vectors }
    ensures sized { IfOk result (λ _. Sized g.d g.n g.cap g.mode faces marks vectors) }
{
    g.check()?;
    if !inner::own_lengths_ok(g, faces, marks, vectors) {
        return Err(Refusal::WrongLength);
    }
    Ok(())
}

// Makes the index empty: zeros in face sets, marks and stored vectors. Refuses 1, then 2, and changes nothing then.
#[tactic(auto, unfolding(crate::specs::Memory::empty_of), using(crate::proofs::Lengths::empty_is))]
pub fn new_vector_store(
    faces: &mut [u64],
    marks: &mut [u64],
    vectors: &mut [u8],
    g: Geometry,
) -> Result<(), Refusal>
    ensures { done (code_of result) (ix_of faces.new marks.new vectors.new) ≡ empty_of g (ix_of faces.old marks.old vectors.old) }
{
    check_own(g, faces.len(), marks.len(), vectors.len())?;
    faces.fill(0);
    marks.fill(0);
    vectors.fill(0);
    Ok(())
}

// The laws of this crate, claimed: specs/Laws.antt says each of them.
pub fn laws()
    ensures { Laws }
{}
