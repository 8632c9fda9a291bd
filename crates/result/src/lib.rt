// The ranked list of a search: at most k entries of an id and a similarity, fed one by one.
#![tactic(auto)]

ghost use Rattle.std.specs.Prelude.{◌≡◌, ◌≤◌, min, eqb, length};
ghost use Rattle.result.specs.Lists.{all_of, is_zero, is_blank, is_held};
ghost use Rattle.result.specs.Sets.{made_of, empty_set, well_formed, entries_of, feed_of, fed_or};
ghost use Rattle.result.specs.Reads.{ListedIs};
ghost use Rattle.result.specs.Recalls.{pairs_of, told_by, recall_of};
ghost use Rattle.result.specs.Laws.{Laws};
ghost use Rattle.paper.specs.Refusals.{code_of};

use paper::Refusal;

pub mod inner;

/// The list: the first len places of ids and sims, best first; k is how many it may hold, and checked counts the entries fed to it.
/// Well formed: k no more than 256, len no more than k, no score NaN, and zero bits alone behind the last entry.
/// (Two fixed arrays and a length: nothing is allocated, and the C layer copies each array by itself.)
#[derive(Clone, Copy, Debug)]
pub struct ResultSet {
    pub ids: [u32; 256],
    pub sims: [f32; 256],
    pub len: usize,
    pub k: usize,
    pub checked: u32,
}

/// One entry of a list.
#[derive(Clone, Copy, Debug)]
pub struct SearchResult {
    pub similarity: f32,
    pub id: u32,
}

// Whether no score is a NaN.
fn all_held(sims: &[f32]) -> bool
    ensures { result ≡ all_of is_held sims.now }
{
    sims.iter().all(|x| !x.is_nan())
}

// Whether every bit of every score is zero. A NaN has bits, and the test for it comes first.
fn all_blank(sims: &[f32]) -> bool
    ensures { result ≡ all_of is_blank sims.now }
{
    sims.iter().all(|x| !x.is_nan() && x.to_bits() == 0)
}

// Whether every id is 0.
fn all_zero(ids: &[u32]) -> bool
    ensures { result ≡ all_of is_zero ids.now }
{
    ids.iter().all(|id| *id == 0)
}

// How many pairs of equal ids two lists have.
fn pairs_in(a: &[u32], b: &[u32]) -> u32
    requires { (length a.now ≤ 256) × (length b.now ≤ 256) }
    ensures { result ≡ pairs_of a.now b.now }
{
    let mut found: u32 = 0;
    for x in a {
        found += b.iter().filter(|y| *y == x).count() as u32;
    }
    found
}

impl ResultSet {
    /// An empty set for at most k entries. Refuses 4 for a k over 256; a refusal comes without a set (the rules have an empty one there, with k 0 and checked 0).
    #[tactic(auto, unfolding(crate::specs::Sets::made_of))]
    pub fn new(k: usize) -> Result<ResultSet, Refusal>
        ensures { fed_or (empty_set 0) result ≡ made_of k }
    {
        if k > 256 {
            return Err(Refusal::WrongK);
        }
        Ok(inner::empty(k))
    }

    /// Whether the set is well formed.
    #[tactic(auto, unfolding(crate::specs::Sets::well_formed))]
    pub fn well_formed(self) -> bool
        ensures { result ≡ well_formed self }
    {
        self.k <= 256
            && self.len <= self.k
            && all_held(&self.sims[..self.len])
            && all_blank(&self.sims[self.len..])
            && all_zero(&self.ids[self.len..])
    }

    /// How many entries the set says it holds.
    pub fn len(self) -> usize
        ensures { result ≡ self.len }
    {
        self.len
    }

    /// Whether the set says it holds none.
    pub fn is_empty(self) -> bool
        ensures { result ≡ eqb self.len 0 }
    {
        self.len == 0
    }

    /// Entry i of the list, counted from 0, and none where the list has no entry i. Refuses nothing: of a set that isn't well formed it reads
    /// what stands in the first len places of its arrays.
    pub fn result_at(self, i: usize) -> Option<SearchResult>
        ensures { ListedIs (entries_of self) i result }
    {
        if i >= self.len || i >= 256 {
            return None;
        }
        Some(SearchResult {
            similarity: self.sims[i],
            id: self.ids[i],
        })
    }

    /// Feeds an entry: a full set whose last score is greater stays; else the walk stops at an equal id; else the entry goes before the first
    /// smaller score, or to the end, and the list is cut to k. Either way it is counted. Refuses 13 for a set that isn't well formed, 10 for a
    /// NaN and 12 for a full count: the caller then still has the set as it came.
    #[tactic(auto, unfolding(crate::specs::Sets::feed_of, crate::specs::Sets::feed_refusal))]
    pub fn feed(mut self, id: u32, similarity: f32) -> Result<ResultSet, Refusal>
        ensures { fed_or self result ≡ feed_of self id similarity }
    {
        if !self.well_formed() {
            return Err(Refusal::BadSet);
        }
        if similarity.is_nan() {
            return Err(Refusal::NanScore);
        }
        if self.checked == u32::MAX {
            return Err(Refusal::FullCount);
        }
        self = inner::ranked(self, id, similarity);
        Ok(self)
    }

    /// The same for a set that stays with the caller and is fed in place: a refused set is left as it was.
    pub fn add_result(&mut self, id: u32, similarity: f32) -> Result<(), Refusal>
        ensures { (code_of result ≡ (feed_of self.old id similarity).refusal) × (self.new ≡ (feed_of self.old id similarity).set) }
    {
        *self = (*self).feed(id, similarity)?;
        Ok(())
    }

    /// How many pairs the first `at` entries of the two lists have with one id, over `at`, all as f64. Refuses 13 where either set isn't well formed,
    /// then 14 for an `at` of 0 (the rules count a refused recall as +0.0).
    #[tactic(auto, unfolding(crate::specs::Recalls::recall_of, crate::specs::Recalls::recall_refusal))]
    pub fn compute_recall(self, baseline: ResultSet, at: u32) -> Result<f64, Refusal>
        ensures { told_by result ≡ recall_of self baseline at }
    {
        if !self.well_formed() || !baseline.well_formed() {
            return Err(Refusal::BadSet);
        }
        if at == 0 {
            return Err(Refusal::NoRecall);
        }
        let n = self.len.min(at as usize);
        let m = baseline.len.min(at as usize);
        let found = pairs_in(&baseline.ids[..m], &self.ids[..n]);
        Ok(found as f64 / at as f64)
    }
}

/// The laws of this crate, claimed: specs/Laws.antt says each of them.
pub fn laws()
    ensures { Laws }
{}
