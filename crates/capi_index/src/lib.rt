// The calls for C and Rust on an index: numbers pass as themselves, a slice as a pointer and then a length. Each checks the lengths of what it writes its
// answer into, and is otherwise the public function that its comment names; none asks anything of its caller but that what is lent is there.
#![tactic(auto)]

ghost use Rattle.std.specs.Prelude.{◌≡◌};
ghost use Rattle.paper.specs.Geometry.{geo};
ghost use Rattle.index_memory.specs.Memory.{ix_of, done, empty_of};
ghost use Rattle.adding.specs.Adding.{added, add_of};
ghost use Rattle.merging.specs.Merging.{merge_of};
ghost use Rattle.vector_store.specs.Search.{works};
ghost use Rattle.capi_sets.specs.Lists.{outs, listed};
ghost use Rattle.capi_index.specs.Searches.{scan_into, found, search_into};

use paper::{Geometry, Refusal};
use vector_store::Query;

mod inner;

// Makes the index empty (index_memory::new_vector_store). Refuses 1, then 2, and changes nothing then.
#[unsafe(no_mangle)]
pub extern "C" fn bbq_new(
    faces: &mut [u64],
    marks: &mut [u64],
    vectors: &mut [u8],
    d: usize,
    n: usize,
    cap: usize,
    mode: usize,
) -> u32
    ensures { done result (ix_of faces.new marks.new vectors.new) ≡ empty_of (geo d n cap mode) (ix_of faces.old marks.old vectors.old) }
{
    let g = Geometry { d, n, cap, mode };
    paper::code(index_memory::new_vector_store(faces, marks, vectors, g))
}

// Puts a vector into the index under an id (adding::add_vector). Refuses 1, 2, 3, 5, 6, 7. A refused addition leaves the index
// as it was. 1 to 5 leave the work memory too; after anything else it is +0.0 throughout.
#[unsafe(no_mangle)]
pub extern "C" fn bbq_add_vector(
    bases: &[f32],
    faces: &mut [u64],
    marks: &mut [u64],
    vectors: &mut [u8],
    work: &mut [f32],
    vector: &[f32],
    d: usize,
    n: usize,
    cap: usize,
    mode: usize,
    id: usize,
) -> u32
    ensures { added result (ix_of faces.new marks.new vectors.new) work.new ≡ add_of (geo d n cap mode) bases.now id vector.now (ix_of faces.old marks.old vectors.old) work.old }
{
    let g = Geometry { d, n, cap, mode };
    let answer = adding::add_vector(bases, faces, marks, vectors, work, vector, g, id);
    paper::code(answer)
}

// Joins a second index to the first (merging::merge). Refuses 1, 2, 11, and changes nothing then.
#[unsafe(no_mangle)]
pub extern "C" fn bbq_merge(
    faces: &mut [u64],
    marks: &mut [u64],
    vectors: &mut [u8],
    faces2: &[u64],
    marks2: &[u64],
    vectors2: &[u8],
    d: usize,
    n: usize,
    cap: usize,
    mode: usize,
) -> u32
    ensures { done result (ix_of faces.new marks.new vectors.new) ≡ merge_of (geo d n cap mode) (ix_of faces.old marks.old vectors.old) (ix_of faces2.now marks2.now vectors2.now) }
{
    let g = Geometry { d, n, cap, mode };
    let answer = merging::merge(faces, marks, vectors, faces2, marks2, vectors2, g);
    paper::code(answer)
}

// Ranks every present id (vector_store::full_table_scan) and writes the list: its ids and scores into the first places of two arrays of length k, its
// length and how many ids were ranked into `counts`. Refuses 1, 2 (also for the three arrays), 4, 5, 10; the arrays are then as they were.
#[unsafe(no_mangle)]
pub extern "C" fn bbq_full_table_scan(
    marks: &[u64],
    vectors: &[u8],
    target: &[f32],
    ids: &mut [u32],
    scores: &mut [f32],
    counts: &mut [u32],
    d: usize,
    n: usize,
    cap: usize,
    mode: usize,
    k: usize,
) -> u32
    ensures { listed result (outs ids.new scores.new counts.new) ≡ scan_into (geo d n cap mode) marks.now vectors.now target.now k (outs ids.old scores.old counts.old) }
{
    let g = Geometry { d, n, cap, mode };
    if !g.is_ok() {
        return Refusal::WrongGeometry.into();
    }
    if !capi_sets::inner::room_ok(k, 2, ids.len(), scores.len(), counts.len()) {
        return Refusal::WrongLength.into();
    }
    let fed = vector_store::full_table_scan(marks, vectors, target, g, k);
    capi_sets::inner::put_fed(fed, ids, scores, counts)
}

// Searches (vector_store::find_nearest) and writes the list: its ids and scores into the first places of two arrays of length k, its length,
// how many ids were ranked and how many were dropped into `counts`. Refuses 1, 2 (also for the three arrays), 4, 5, 7, 8, 9, 10; the arrays are then as
// they were. Refusals 1 to 5 leave the work memories as they were; past those they are all zeros.
#[unsafe(no_mangle)]
pub extern "C" fn bbq_find_nearest(
    bases: &[f32],
    faces: &[u64],
    marks: &[u64],
    vectors: &[u8],
    work: &mut [f32],
    layers: &mut [u64],
    set: &mut [u64],
    target: &[f32],
    ids: &mut [u32],
    scores: &mut [f32],
    counts: &mut [u32],
    d: usize,
    n: usize,
    cap: usize,
    mode: usize,
    k: usize,
    search_k: usize,
    spill: usize,
) -> u32
    ensures { found result (works work.new layers.new set.new) (outs ids.new scores.new counts.new)
        ≡ search_into (geo d n cap mode) bases.now (ix_of faces.now marks.now vectors.now) target.now k search_k spill
        (works work.old layers.old set.old) (outs ids.old scores.old counts.old) }
{
    let g = Geometry { d, n, cap, mode };
    if !g.is_ok() {
        return Refusal::WrongGeometry.into();
    }
    if !capi_sets::inner::room_ok(k, 3, ids.len(), scores.len(), counts.len()) {
        return Refusal::WrongLength.into();
    }
    let query = Query { k, search_k, spill };
    let nearest = vector_store::find_nearest(
        bases, faces, marks, vectors, work, layers, set, target, g, query,
    );
    inner::put_nearest(nearest, ids, scores, counts)
}
