// Adding a vector to an index over lent memory (vector_store.rs's add_vector, backend_memory.rs's put_vector).
#![tactic(auto)]

ghost use Rattle.std.specs.Prelude.{◌≡◌, ◌+◌, ◌*◌, ◌<◌, ◌≤◌, ℕ, true, eqb, length, get_or, IfOk};
ghost use Rattle.std.proofs.lemmas.List.Edits.{sets};
ghost use Rattle.paper.specs.Choice.{pick, refuse};
ghost use Rattle.paper.specs.Geometry.{comp_size};
ghost use Rattle.paper.specs.Refusals.{code_of};
ghost use Rattle.index_memory.specs.Memory.{ix_of};
ghost use Rattle.vector.specs.Finite.{all_finite};
ghost use Rattle.vector.specs.Norm.{norm_number, normalized};
ghost use Rattle.basis.specs.Bases.{projections_finite};
ghost use Rattle.quantization.specs.Stored.{lower_bytes};
ghost use Rattle.adding.specs.Adding.{lent_ok, add_shape, late_refusal, with_faces, with_vector, written_ix, added_ix, added, add_of, face_slot, SlotArgs, FaceArgs, VecArgs, WriteArgs, Shaped};
ghost use Rattle.adding.specs.Laws.{Laws};

use paper::{Geometry, Refusal};

// ---- tests

// Whether bases, work memory and vector have their lengths.
#[tactic(auto, unfolding(crate::specs::Adding::lent_ok))]
fn lent_lengths_ok(g: Geometry, bases: usize, work: usize, v: usize) -> bool
    requires { (g.d ≤ 1024) × (g.n ≤ 32) }
    ensures { result ≡ lent_ok g.d g.n bases work v }
{
    index_memory::inner::bases_length_ok(g, bases) && work == g.d && v == g.d
}

// Refuses 1, 2 and 3, in this order.
fn check_shape(
    g: Geometry,
    id: usize,
    bases: usize,
    faces: usize,
    marks: usize,
    vectors: usize,
    work: usize,
    v: usize,
) -> Result<(), Refusal>
    ensures told { code_of result ≡ add_shape g id bases faces marks vectors work v }
    ensures shaped { IfOk result (λ _. Shaped g id bases faces marks vectors work v) }
{
    index_memory::check_own(g, faces, marks, vectors)?;
    if !lent_lengths_ok(g, bases, work, v) {
        return Err(Refusal::WrongLength);
    }
    if g.cap <= id {
        return Err(Refusal::WrongId);
    }
    Ok(())
}

// ---- the parts of an addition

// The vector normalised, in the work memory; or the refusal of normalising.
fn normalize_into(v: &[f32], work: &mut [f32]) -> Result<(), Refusal>
    requires { length work.old ≡ length v.now }
    ensures { (code_of result ≡ norm_number v.now) × (work.new ≡ normalized v.now) }
{
    paper::inner::copy_over(work, v);
    vector::normalize(work)
}

// The slot of the vector's face in each basis; 7 as soon as a projection has an entry that is not finite. Each basis is projected on once: the
// slots wait here until every check has passed, in a fixed array, since nothing is allocated.
fn slots_of(bases: &[f32], v: &[f32], work: &mut [f32], g: Geometry) -> Result<[usize; 32], Refusal>
    requires { SlotArgs g.d g.n (length bases.now) (length v.now) (length work.old) }
    ensures told { code_of result ≡ refuse 7 (projections_finite g.d bases.now v.now g.n) 0 }
    ensures found { IfOk result (λ slots. (b : ℕ) → b < g.n → get_or slots b 0 ≡ face_slot g.d bases.now v.now b) }
{
    let square = g.d * g.d;
    let mut slots = [0usize; 32];
    for b in 0..g.n {
        let p = b * square;
        basis::inner::project(&bases[p..p + square], v, work);
        if !vector::all_finite(work) {
            return Err(Refusal::NoProjection);
        }
        slots[b] = faces::inner::slot(work);
    }
    Ok(slots)
}

// Puts the id into the face set of its slot, for each basis.
fn add_to_bitmaps(faces: &mut [u64], slots: [usize; 32], g: Geometry, id: usize)
    requires { FaceArgs g.d g.n g.cap id (length faces.old) slots }
    ensures { faces.new ≡ with_faces g.d g.cap id (λ b. get_or slots b 0) g.n faces.old }
{
    for b in 0..g.n {
        bitmaps::inner::add(faces, (b * (2 * g.d) + slots[b]) * g.cap + id);
    }
}

// Stores components, lowered, from byte `at` on.
fn put_components(vectors: &mut [u8], work: &[f32], at: usize, mode: usize)
    requires { at + comp_size mode * length work.now ≤ length vectors.old }
    ensures { vectors.new ≡ sets vectors.old at (lower_bytes mode work.now) }
{
    let size = paper::component_size(mode);
    for (i, x) in work.iter().enumerate() {
        quantization::inner::put_component(vectors, at + size * i, *x, mode);
    }
}

// Stores the normalised vector, lowered, in the id's slot.
fn put_vector(vectors: &mut [u8], v: &[f32], work: &mut [f32], g: Geometry, id: usize)
    requires { VecArgs g.d g.cap g.mode id (length vectors.old) (length v.now) (length work.old) }
    ensures { vectors.new ≡ with_vector g.d g.mode id v.now vectors.old }
{
    let _ = normalize_into(v, work);
    let size = paper::component_size(g.mode);
    put_components(vectors, work, id * (size * g.d), g.mode);
}

// Writes an addition that nothing refuses any more.
fn write(
    faces: &mut [u64],
    marks: &mut [u64],
    vectors: &mut [u8],
    work: &mut [f32],
    v: &[f32],
    slots: [usize; 32],
    g: Geometry,
    id: usize,
)
    requires { WriteArgs g.d g.n g.cap g.mode id (length faces.old) (length marks.old) (length vectors.old) (length work.old) (length v.now) slots }
    ensures { ix_of faces.new marks.new vectors.new ≡ written_ix g (λ b. get_or slots b 0) id v.now (ix_of faces.old marks.old vectors.old) }
{
    add_to_bitmaps(faces, slots, g, id);
    bitmaps::inner::add(marks, id);
    put_vector(vectors, v, work, g, id);
}

// Refuses 6 and 7; else makes the addition. What the work memory holds afterwards is for the caller to clear.
fn check_and_write(
    bases: &[f32],
    faces: &mut [u64],
    marks: &mut [u64],
    vectors: &mut [u8],
    work: &mut [f32],
    v: &[f32],
    g: Geometry,
    id: usize,
) -> Result<(), Refusal>
    requires shaped { Shaped g id (length bases.now) (length faces.old) (length marks.old) (length vectors.old) (length work.old) (length v.now) }
    requires finite { all_finite v.now ≡ true }
    ensures told { code_of result ≡ late_refusal g.d g.n bases.now v.now }
    ensures index { ix_of faces.new marks.new vectors.new ≡ pick (eqb (code_of result) 0) (added_ix g bases.now id v.now (ix_of faces.old marks.old vectors.old)) (ix_of faces.old marks.old vectors.old) }
{
    normalize_into(v, work)?;
    let slots = slots_of(bases, v, work, g)?;
    write(faces, marks, vectors, work, v, slots, g, id);
    Ok(())
}

// ---- the call

// Puts the vector into the index under the id: the id goes into one face set of each basis, that of the face of the vector's projection; its mark
// is set; the vector is stored, normalised and lowered. An id that is there already gets the new vector, and its older face bits stay. Refuses 1, 2, 3, 5,
// 6, 7 in this order. A refused addition leaves the index as it was. 1 to 5 leave the work memory too; after anything else it is +0.0 throughout.
pub fn add_vector(
    bases: &[f32],
    faces: &mut [u64],
    marks: &mut [u64],
    vectors: &mut [u8],
    work: &mut [f32],
    v: &[f32],
    g: Geometry,
    id: usize,
) -> Result<(), Refusal>
    ensures { added (code_of result) (ix_of faces.new marks.new vectors.new) work.new ≡ add_of g bases.now id v.now (ix_of faces.old marks.old vectors.old) work.old }
{
    check_shape(
        g,
        id,
        bases.len(),
        faces.len(),
        marks.len(),
        vectors.len(),
        work.len(),
        v.len(),
    )?;
    if !vector::all_finite(v) {
        return Err(Refusal::NotFinite);
    }
    let answer = check_and_write(bases, faces, marks, vectors, work, v, g, id);
    work.fill(0.0);
    answer
}

// The laws of this crate, claimed: specs/Laws.antt says each of them.
pub fn laws()
    ensures { Laws }
{}
