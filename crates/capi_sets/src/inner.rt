// What these calls and those on an index share: the test of the lent arrays, and writing an answer into them.
ghost use Rattle.std.specs.Prelude.{◌≡◌, ◌∷◌, [], length, IfOk};
ghost use Rattle.capi_vectors.specs.Single.{laid_over};
ghost use Rattle.result.specs.Places.{entries};
ghost use Rattle.paper.specs.Refusals.{code_of};
ghost use Rattle.result.specs.Sets.{answer, feed_all_of};
ghost use Rattle.capi_sets.specs.Lists.{room_ok, outs, listed, put_set, feeding_of, Fits};

use capi_vectors::inner::copy_front;
use paper::Refusal;
use result::ResultSet;
use result::inner::empty;

// ---- a list in its arrays

// Whether ids and scores have k places, and `counts` has m.
#[tactic(auto, unfolding(crate::specs::Lists::room_ok))]
pub fn room_ok(k: usize, m: usize, ids: usize, scores: usize, counts: usize) -> bool
    ensures { result ≡ room_ok k m ids scores counts }
{
    ids == k && scores == k && counts == m
}

// Two numbers into two places.
pub fn tell_two(counts: &mut [u32], a: u32, b: u32)
    requires { length counts.old ≡ 2 }
    ensures { counts.new ≡ a ∷ b ∷ [] }
{
    counts[0] = a;
    counts[1] = b;
}

// A list into the first places of ids and scores.
pub fn put_list(set: &ResultSet, ids: &mut [u32], scores: &mut [f32])
    requires { Fits set.now (length ids.old) (length scores.old) }
    ensures { (ids.new ≡ laid_over set.now.len set.now.ids ids.old) × (scores.new ≡ laid_over set.now.len set.now.sims scores.old) }
{
    copy_front(&set.ids, set.len, ids);
    copy_front(&set.sims, set.len, scores);
}

// A ranked set into the arrays, with its length and count told; a refused one changes nothing. The answer is the refusal's number, as C has it.
pub fn put_fed(
    fed: Result<ResultSet, Refusal>,
    ids: &mut [u32],
    scores: &mut [f32],
    counts: &mut [u32],
) -> u32
    requires fits { IfOk fed (λ s. Fits s (length ids.old) (length scores.old)) }
    requires two { length counts.old ≡ 2 }
    ensures { listed result (outs ids.new scores.new counts.new) ≡ put_set fed (outs ids.old scores.old counts.old) }
{
    match fed {
        Ok(set) => {
            put_list(&set, ids, scores);
            tell_two(counts, set.len as u32, set.checked);
            0
        }
        Err(refusal) => refusal.into(),
    }
}

// ---- feeding

// Feeds the pairs of two arrays in turn, up to the first refusal: the set is then as it had been fed up to there.
pub fn feed_all(set: &mut ResultSet, ids: &[u32], scores: &[f32]) -> Result<(), Refusal>
    requires { length ids.now ≡ length scores.now }
    ensures { answer (code_of result) set.new ≡ feed_all_of set.old (entries (length ids.now) ids.now scores.now) }
{
    for i in 0..ids.len() {
        set.add_result(ids[i], scores[i])?;
    }
    Ok(())
}

// The set becomes a new one with k, fed so; where no set has that k, the empty one with k 0.
pub fn feed_new(set: &mut ResultSet, k: usize, ids: &[u32], scores: &[f32]) -> Result<(), Refusal>
    requires { length ids.now ≡ length scores.now }
    ensures { answer (code_of result) set.new ≡ feeding_of k ids.now scores.now }
{
    *set = empty(0);
    *set = ResultSet::new(k)?;
    feed_all(set, ids, scores)
}
