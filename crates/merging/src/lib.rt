// Merging a second index into a first one, over lent memory.
#![tactic(auto)]

ghost use Rattle.std.specs.Prelude.{◌≡◌, ◌+◌, ◌*◌, ◌≤◌, length, take, drop};
ghost use Rattle.std.proofs.lemmas.List.Edits.{sets};
ghost use Rattle.paper.specs.Refusals.{code_of};
ghost use Rattle.index_memory.specs.Memory.{ix_of, done};
ghost use Rattle.bitmaps.specs.Words.{shared, is_empty};
ghost use Rattle.merging.specs.Merging.{copied, merge_of, CopyArgs};
ghost use Rattle.merging.specs.Laws.{Laws};

use paper::{Geometry, Refusal};

// Whether no id is in both sets, a word of each at a time.
fn share_nothing(a: &[u64], b: &[u64]) -> bool
    requires { length a.now ≡ length b.now }
    ensures { result ≡ is_empty (shared a.now b.now) }
{
    for i in 0..a.len() {
        if a[i] & b[i] != 0 {
            return false;
        }
    }
    true
}

// Copies the bytes of one slot.
fn copy_slot(vectors: &mut [u8], from: &[u8], at: usize, size: usize)
    requires { (at + size ≤ length vectors.old) × (length from.now ≡ length vectors.old) }
    ensures { vectors.new ≡ sets vectors.old at (take size (drop at from.now)) }
{
    paper::inner::copy_over(&mut vectors[at..at + size], &from[at..at + size]);
}

// Copies the slots of the marked ids, and no others.
fn copy_present(vectors: &mut [u8], from: &[u8], marks: &[u64], size: usize)
    requires { CopyArgs size (length vectors.old) (length from.now) (length marks.now) }
    ensures { vectors.new ≡ copied size (length marks.now * 64) marks.now from.now vectors.old }
{
    let mut at = 0;
    // No `for`: where the walk goes on follows from what it found.
    while let Some(i) = bitmaps::inner::next(marks, at) {
        copy_slot(vectors, from, i * size, size);
        at = i + 1;
    }
}

// Joins a second index of the same geometry to the first: its face bits and its marks, and the vectors of its marked ids. Refuses 1, 2 and, where
// both have a mark of the same id, 11; it changes nothing then.
pub fn merge(
    faces: &mut [u64],
    marks: &mut [u64],
    vectors: &mut [u8],
    faces2: &[u64],
    marks2: &[u64],
    vectors2: &[u8],
    g: Geometry,
) -> Result<(), Refusal>
    ensures { done (code_of result) (ix_of faces.new marks.new vectors.new) ≡ merge_of g (ix_of faces.old marks.old vectors.old) (ix_of faces2.now marks2.now vectors2.now) }
{
    index_memory::check_own(g, faces.len(), marks.len(), vectors.len())?;
    if !index_memory::inner::own_lengths_ok(g, faces2.len(), marks2.len(), vectors2.len()) {
        return Err(Refusal::WrongLength);
    }
    if !share_nothing(marks, marks2) {
        return Err(Refusal::SharedId);
    }
    let size = paper::component_size(g.mode) * g.d;
    copy_present(vectors, vectors2, marks2, size);
    bitmaps::inner::or(faces, faces2);
    bitmaps::inner::or(marks, marks2);
    Ok(())
}

// The laws of this crate, claimed: specs/Laws.antt says each of them.
pub fn laws()
    ensures { Laws }
{}
