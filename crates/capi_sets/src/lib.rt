// The calls for C and Rust on counting layers and result sets by themselves. Each checks the length of what it writes its answer into, and is otherwise
// the public function that its comment names; none asks anything of its caller but that what is lent is there.
#![tactic(auto)]

ghost use Rattle.std.specs.Prelude.{◌≡◌};
ghost use Rattle.capi_vectors.specs.Single.{single};
ghost use Rattle.capi_sets.specs.Layers.{counted_in, or_into, top_into};
ghost use Rattle.capi_sets.specs.Lists.{outs, listed, feed_into};

use capi_vectors::inner::put_one;
use paper::Refusal;

pub mod inner;

// Merges a set into counting layers (counting_bitmap::or); the dropped count in dropped[0]. Refuses 1, then 2 (also for a `dropped` that isn't of length 1),
// and changes nothing then.
#[unsafe(no_mangle)]
pub extern "C" fn bbq_counting_or(
    layers: &mut [u64],
    set: &mut [u64],
    cap: usize,
    n: usize,
    dropped: &mut [u32],
) -> u32
    ensures { counted_in result layers.new set.new dropped.new ≡ or_into cap n layers.old set.old dropped.old }
{
    if !counting_bitmap::inner::layers_ok(cap, n) {
        return Refusal::WrongGeometry.into();
    }
    if dropped.len() != 1 {
        return Refusal::WrongLength.into();
    }
    let answer = counting_bitmap::or(cap, n, layers, set);
    put_one(answer, dropped)
}

// The number of the highest layer with at least search_k ids, counted from 0, in layer[0] (counting_bitmap::top_k_number). Refuses 1, 2 (also for a `layer`
// that isn't of length 1), 8; `layer` is then as it was.
#[unsafe(no_mangle)]
pub extern "C" fn bbq_top_k(
    layers: &[u64],
    cap: usize,
    n: usize,
    search_k: usize,
    layer: &mut [usize],
) -> u32
    ensures { single result layer.new ≡ top_into cap n layers.now search_k layer.old }
{
    if !counting_bitmap::inner::layers_ok(cap, n) {
        return Refusal::WrongGeometry.into();
    }
    if layer.len() != 1 {
        return Refusal::WrongLength.into();
    }
    let answer = counting_bitmap::top_k_number(cap, n, layers, search_k);
    put_one(answer, layer)
}

// A new result set with k, fed the pairs of two arrays in turn (result::ResultSet::new and feed), and written as a list: ids and scores into the first places of
// two arrays of length k, its length and count into `counts`. Refuses 2 for ids and scores of unequal length and for the three arrays, then 4, then what the
// first refused feed gives; the arrays are then as they were.
#[unsafe(no_mangle)]
pub extern "C" fn bbq_feed(
    k: usize,
    ids: &[u32],
    scores: &[f32],
    out_ids: &mut [u32],
    out_scores: &mut [f32],
    counts: &mut [u32],
) -> u32
    ensures { listed result (outs out_ids.new out_scores.new counts.new) ≡ feed_into k ids.now scores.now (outs out_ids.old out_scores.old counts.old) }
{
    if ids.len() != scores.len() {
        return Refusal::WrongLength.into();
    }
    if !inner::room_ok(k, 2, out_ids.len(), out_scores.len(), counts.len()) {
        return Refusal::WrongLength.into();
    }
    let mut set = result::inner::empty(0);
    let answer = inner::feed_new(&mut set, k, ids, scores);
    inner::put_fed(answer.and(Ok(set)), out_ids, out_scores, counts)
}
