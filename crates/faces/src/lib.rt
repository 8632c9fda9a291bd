// Faces: find_face_idx and the spilling of a search (helpers of vector_store.rs).
// The face of a projection is the place of its entry of greatest absolute value, with that entry's sign.
#![tactic(auto)]

ghost use Rattle.std.specs.Prelude.{◌≡◌, pos};
ghost use Rattle.paper.specs.Refusals.{code_of, Answers};
ghost use Rattle.faces.specs.Slots.{face_of, picks_of};
ghost use Rattle.faces.specs.Answer.{face_number, spilled, spilling, spill_of};
ghost use Rattle.faces.specs.Laws.{Laws};

use paper::Refusal;

pub mod inner;

/// The faces that spilling picks, in their order: the first `count` of `faces`; the others are 0. (A fixed array with its length: nothing is allocated.)
#[derive(Clone, Copy, Debug, PartialEq, Eq)]
pub struct Spilled {
    pub count: usize,
    pub faces: [i32; 1024],
}

// Refuses a projection that has no face: 1 unless there are 1 to 1,024 entries, then 7 unless each of them is finite.
#[tactic(auto, unfolding(crate::specs::Answer::face_number))]
fn check(projection: &[f32]) -> Result<(), Refusal>
    ensures { code_of result ≡ face_number projection.now }
{
    let d = projection.len();
    if d < 1 || 1024 < d {
        return Err(Refusal::WrongGeometry);
    }
    if !vector::all_finite(projection) {
        return Err(Refusal::NoProjection);
    }
    Ok(())
}

/// The face of a projection: index + 1 of its greatest entry, or -(index + 1) where that entry is not above 0. Of equal ones a positive comes before a
/// negative, then the first index. Refuses 1 unless there are 1 to 1,024 entries, then 7 unless each of them is finite.
#[tactic(auto, using(crate::proofs::Answer::has_face))]
pub fn find_face_idx(projection: &[f32]) -> Result<i32, Refusal>
    ensures { Answers result (face_number projection.now) (face_of projection.now) (pos 0) }
{
    check(projection)?;
    Ok(inner::face(projection))
}

/// How many faces a search picks with this spill in d dimensions: spill + 1, and d where spill is at or above d.
#[tactic(auto, unfolding(crate::specs::Slots::picks_of))]
pub fn picks_for(d: usize, spill: usize) -> usize
    ensures { result ≡ picks_of d spill }
{
    if spill >= d {
        return d;
    }
    spill + 1
}

/// Picks spill + 1 faces, one after the other, and sets each picked entry to +0.0 (spill at or above d counts as d - 1). Refuses 1 and 7 as
/// find_face_idx does; a refusal leaves the projection as it was.
pub fn spill_faces(projection: &mut [f32], spill: usize) -> Result<Spilled, Refusal>
    ensures { spilling (spilled result) projection.new ≡ spill_of spill projection.old }
{
    check(projection)?;
    let count = picks_for(projection.len(), spill);
    let mut faces = [0i32; 1024];
    inner::pick_faces(projection, count, &mut faces);
    Ok(Spilled { count, faces })
}

// The laws of this crate, claimed: specs/Laws.antt says each of them.
pub fn laws()
    ensures { Laws }
{}
