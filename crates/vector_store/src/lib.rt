// The nearest neighbours of a target: find_nearest and full_table_scan of vector_store.rs, over lent memory.
#![tactic(auto)]

ghost use Rattle.std.specs.Prelude.{◌≡◌, ◌≤◌, length, IfOk};
ghost use Rattle.paper.specs.Refusals.{code_of};
ghost use Rattle.index_memory.specs.Memory.{ix_of};
ghost use Rattle.result.specs.Sets.{empty_set, fed_or};
ghost use Rattle.backend_memory.specs.Scan.{scan_of};
ghost use Rattle.vector_store.specs.Search.{told_of, found_of, works, searched, searched_by, work_ok, search_refusal, search_of, FindArgs};
ghost use Rattle.vector_store.specs.Laws.{Laws};

use paper::{Geometry, Refusal};
use result::ResultSet;

/// What a search asks for: a list of at most `k`, from the highest layer with `search_k` ids or more, and `spill` faces of a basis beyond the first.
#[derive(Clone, Copy, Debug, PartialEq, Eq)]
pub struct Query {
    pub k: usize,
    pub search_k: usize,
    pub spill: usize,
}

/// What a search answers: the list, and how many ids fell off the last layer.
#[derive(Clone, Copy)]
pub struct Nearest {
    pub set: ResultSet,
    pub dropped: u32,
}

// Whether target, work, layers and set have their lengths.
#[tactic(auto, unfolding(crate::specs::Search::work_ok))]
fn work_lengths_ok(g: Geometry, target: usize, work: usize, layers: usize, set: usize) -> bool
    requires { (g.n ≤ 32) × (g.cap ≤ 65536) }
    ensures { result ≡ work_ok g.d g.n g.cap target work layers set }
{
    target == g.d && work == g.d && layers == g.n * (g.cap / 64) && set == g.cap / 64
}

// Refuses a search with the first of 1, 2, 4 and 5 that is due.
#[tactic(auto, unfolding(crate::specs::Search::search_shape, crate::specs::Search::search_refusal))]
fn check_search(
    bases: &[f32],
    faces: &[u64],
    marks: &[u64],
    vectors: &[u8],
    work: &[f32],
    layers: &[u64],
    set: &[u64],
    target: &[f32],
    g: Geometry,
    k: usize,
) -> Result<(), Refusal>
    ensures told { code_of result ≡ search_refusal g bases.now (ix_of faces.now marks.now vectors.now) target.now k (works work.now layers.now set.now) }
    ensures sized { IfOk result (λ _. FindArgs g k (length bases.now) (length faces.now) (length marks.now) (length vectors.now) (length target.now) (length work.now) (length layers.now) (length set.now)) }
{
    g.check()?;
    if !index_memory::inner::own_lengths_ok(g, faces.len(), marks.len(), vectors.len()) {
        return Err(Refusal::WrongLength);
    }
    if !index_memory::inner::bases_length_ok(g, bases.len()) {
        return Err(Refusal::WrongLength);
    }
    if !work_lengths_ok(g, target.len(), work.len(), layers.len(), set.len()) {
        return Err(Refusal::WrongLength);
    }
    if k > 256 {
        return Err(Refusal::WrongK);
    }
    if !vector::all_finite(target) {
        return Err(Refusal::NotFinite);
    }
    Ok(())
}

// What a search past refusal 5 answers: the candidates are gathered, and the ids of the highest layer that has search_k of them are ranked. It leaves
// anything in the three work memories.
fn find_nearest_internal(
    bases: &[f32],
    faces: &[u64],
    marks: &[u64],
    vectors: &[u8],
    work: &mut [f32],
    layers: &mut [u64],
    set: &mut [u64],
    target: &[f32],
    g: Geometry,
    query: Query,
) -> Result<Nearest, Refusal>
    requires { FindArgs g query.k (length bases.now) (length faces.now) (length marks.now) (length vectors.now) (length target.now) (length work.old) (length layers.old) (length set.old) }
    ensures { told_of result ≡ found_of g.n g.mode query.k query.search_k (searched_by g bases.now (ix_of faces.now marks.now vectors.now) target.now query.spill) marks.now vectors.now }
{
    let picks = faces::picks_for(g.d, query.spill);
    let dropped = candidates::inner::gather(bases, faces, target, work, layers, set, g.n, picks)?;
    let words = g.cap / 64;
    let top = counting_bitmap::inner::top_layer(layers, g.n, words, query.search_k);
    let Some(i) = top else {
        return Err(Refusal::NoLayer);
    };
    let a = i * words;
    let ids = &layers[a..a + words];
    let set = backend_memory::inner::rank(ids, marks, vectors, target, g.mode, query.k)?;
    Ok(Nearest { set, dropped })
}

// Lists at most k of the candidates that the index names for the target. The candidates: each basis has a union of the spill + 1 face sets that the
// target's projection picks (a spill of d or more counts as d - 1), the unions are merged into n counting layers, and the highest layer with search_k ids
// or more is taken. Each candidate is fed, lowest id first, with its distance from the target, which is not normalised here. Larger scores come first, and a
// list of more than k candidates keeps the k farthest.
// Refuses 1, 2, 4, 5, 7 and 8, and then for each candidate in turn 9 or 10; a refusal comes without a list (the rules have an empty one there, with k 0 and
// checked 0, and nothing dropped). Work is d floats, layers n times and set once the words of a set: 1 to 5 leave them alone, and after anything else they are all zeros.
pub fn find_nearest(
    bases: &[f32],
    faces: &[u64],
    marks: &[u64],
    vectors: &[u8],
    work: &mut [f32],
    layers: &mut [u64],
    set: &mut [u64],
    target: &[f32],
    g: Geometry,
    query: Query,
) -> Result<Nearest, Refusal>
    ensures { searched (told_of result) (works work.new layers.new set.new)
        ≡ search_of g bases.now (ix_of faces.now marks.now vectors.now) target.now query.k query.search_k query.spill
        (works work.old layers.old set.old) }
{
    check_search(
        bases, faces, marks, vectors, work, layers, set, target, g, query.k,
    )?;
    let found = find_nearest_internal(
        bases, faces, marks, vectors, work, layers, set, target, g, query,
    );
    work.fill(0.0);
    layers.fill(0);
    set.fill(0);
    found
}

// Ranks every present id: the backend's scan, under the name that the store gives it. Refuses 1, 2, 4, 5, and 10 for a score that is NaN; a refusal
// comes without a list (the rules have an empty one there, with k 0 and checked 0). It writes to no lent memory.
pub fn full_table_scan(
    marks: &[u64],
    vectors: &[u8],
    target: &[f32],
    g: Geometry,
    k: usize,
) -> Result<ResultSet, Refusal>
    ensures { fed_or (empty_set 0) result ≡ scan_of g marks.now vectors.now target.now k }
{
    backend_memory::full_table_scan(marks, vectors, target, g, k)
}

// The laws of this crate, claimed: specs/Laws.antt says each of them.
pub fn laws()
    ensures { Laws }
{}
