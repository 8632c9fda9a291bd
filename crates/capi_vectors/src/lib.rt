// The calls for C and Rust on vectors, bases and projections: a slice passes as a pointer and then a length. Each call checks the length of what it
// writes its answer into, and is otherwise the public function that its comment names; none asks anything of its caller but that what is lent is there.
#![tactic(auto)]

ghost use Rattle.std.specs.Prelude.{◌≡◌, eqb, length};
ghost use Rattle.paper.specs.Choice.{refuse};
ghost use Rattle.sqrt.specs.RootOf.{root};
ghost use Rattle.vector.specs.Fold.{dot_of, squares_of};
ghost use Rattle.vector.specs.Norm.{norm_number, normalized, normal};
ghost use Rattle.ortho.specs.Ortho.{written, orthonormalized};
ghost use Rattle.capi_vectors.specs.Single.{single, into_one};
ghost use Rattle.capi_vectors.specs.Projections.{face_into, spilt, spill_into};

use paper::Refusal;

pub mod inner;

// ---- vectors and bases

// The dot product in out[0] (vector::dot_product). Refuses 2 for unequal lengths, and for an `out` that isn't of length 1; `out` is then as it was.
#[unsafe(no_mangle)]
pub extern "C" fn bbq_dot_product(a: &[f32], b: &[f32], out: &mut [f32]) -> u32
    ensures { single result out.new ≡ into_one (refuse 2 (eqb (length a.now) (length b.now)) 0) (dot_of a.now b.now) out.old }
{
    if out.len() != 1 {
        return Refusal::WrongLength.into();
    }
    let answer = vector::dot_product(a, b);
    inner::put_one(answer, out)
}

// The distance in out[0] (vector::distance). Refuses as the dot product does.
#[unsafe(no_mangle)]
pub extern "C" fn bbq_distance(a: &[f32], b: &[f32], out: &mut [f32]) -> u32
    ensures { single result out.new ≡ into_one (refuse 2 (eqb (length a.now) (length b.now)) 0) (root (squares_of a.now b.now)) out.old }
{
    if out.len() != 1 {
        return Refusal::WrongLength.into();
    }
    let answer = vector::distance(a, b);
    inner::put_one(answer, out)
}

// Divides each component by the norm (vector::normalize). Refuses 5, then 6; the vector is then as it was.
#[unsafe(no_mangle)]
pub extern "C" fn bbq_normalize(v: &mut [f32]) -> u32
    ensures { normal result v.new ≡ normal (norm_number v.old) (normalized v.old) }
{
    paper::code(vector::normalize(v))
}

// Writes a basis, orthonormalised, to `out` (ortho::orthonormalize). Refuses 1, 2, 5, which leave `out` as it was, and 6, which leaves it all +0.0.
#[unsafe(no_mangle)]
pub extern "C" fn bbq_orthonormalize(basis: &[f32], out: &mut [f32], d: usize, rounds: usize) -> u32
    ensures { written result out.new ≡ orthonormalized d rounds basis.now out.old }
{
    paper::code(ortho::orthonormalize(basis, out, d, rounds))
}

// ---- the faces of a projection

// The face of a projection in out[0] (faces::find_face_idx). Refuses 1 for the projection's length, 2 for an `out` that isn't of length 1, 7 for an entry
// that isn't finite; `out` is then as it was.
#[unsafe(no_mangle)]
pub extern "C" fn bbq_find_face_idx(projection: &[f32], out: &mut [i32]) -> u32
    ensures { single result out.new ≡ face_into projection.now out.old }
{
    if !inner::dims_ok(projection.len()) {
        return Refusal::WrongGeometry.into();
    }
    if out.len() != 1 {
        return Refusal::WrongLength.into();
    }
    let answer = faces::find_face_idx(projection);
    inner::put_one(answer, out)
}

// The faces that spilling picks, in the first min(spill, d - 1) + 1 places of `out` (faces::spill_faces); each picked entry of the projection becomes +0.0.
// Refuses 1 for the projection's length, 2 for an `out` of another length than it, 7 for an entry that isn't finite; both are then as they were.
#[unsafe(no_mangle)]
pub extern "C" fn bbq_spill_faces(projection: &mut [f32], spill: usize, out: &mut [i32]) -> u32
    ensures { spilt result projection.new out.new ≡ spill_into spill projection.old out.old }
{
    if !inner::dims_ok(projection.len()) {
        return Refusal::WrongGeometry.into();
    }
    if out.len() != projection.len() {
        return Refusal::WrongLength.into();
    }
    match faces::spill_faces(projection, spill) {
        Ok(spilled) => {
            inner::copy_front(&spilled.faces, spilled.count, out);
            0
        }
        Err(refusal) => refusal.into(),
    }
}
