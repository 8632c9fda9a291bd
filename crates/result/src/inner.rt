// Making and feeding with no test, for callers that know that k is at most 256 and that the set is well formed.
ghost use Rattle.std.specs.Prelude.{◌≡◌, ◌++◌, ◌≤◌, ◌<◌, drop, take, length};
ghost use Rattle.result.specs.Lists.{insert_at};
ghost use Rattle.result.specs.Ranked.{entry};
ghost use Rattle.result.specs.Places.{Found, entries, full_above};
ghost use Rattle.result.specs.Sets.{empty_set, fed_set};
ghost use Rattle.result.specs.Puts.{put_in, set_of};

use super::ResultSet;

/// An empty set for at most k entries.
pub fn empty(k: usize) -> ResultSet
    requires { k ≤ 256 }
    ensures { result ≡ empty_set k }
{
    ResultSet {
        ids: [0; 256],
        sims: [0.0; 256],
        len: 0,
        k,
        checked: 0,
    }
}

/// Whether a list of len is full and its last score is greater than the new one. A loop that feeds many candidates may ask this first, and then
/// need only raise checked; what the list is closed to once, it stays closed to.
pub fn closed_to(sims: &[f32], len: usize, k: usize, similarity: f32) -> bool
    requires { len ≤ length sims.now }
    ensures { result ≡ full_above len k sims.now similarity }
{
    len == k && len != 0 && sims[len - 1] > similarity
}

// Where the entry goes in a list of len, and none where its id is met first.
fn place_of(ids: &[u32], sims: &[f32], len: usize, id: u32, similarity: f32) -> Option<usize>
    requires { (len ≤ length ids.now) × (len ≤ length sims.now) }
    ensures { Found len ids.now sims.now (entry id similarity) result }
{
    for insert in 0..len {
        if ids[insert] == id {
            return None;
        }
        if sims[insert] < similarity {
            return Some(insert);
        }
    }
    Some(len)
}

// Puts x in at `at`, and moves what stood from there on along by one, up to `to`: what stood at `to` - 1 falls out.
fn push<T: Copy>(xs: &mut [T], at: usize, to: usize, x: T)
    requires { (at < to) × (to ≤ length xs.old) }
    ensures { xs.new ≡ take to (insert_at at x xs.old) ++ drop to xs.old }
{
    xs.copy_within(at..to - 1, at + 1);
    xs[at] = x;
}

// The entry at a place of the list that two arrays hold, and the list cut to k. The answer is its length.
fn put(
    ids: &mut [u32; 256],
    sims: &mut [f32; 256],
    at: usize,
    len: usize,
    k: usize,
    id: u32,
    similarity: f32,
) -> usize
    requires len_le_k { (len ≤ k) × (k ≤ 256) × (at ≤ len) }
    requires ids_len { (length ids.old ≡ 256) × (length sims.old ≡ 256) }
    ensures { set_of ids.new sims.new result k 1 ≡ put_in (set_of ids.old sims.old len k 1) (insert_at at (entry id similarity) (entries len ids.old sims.old)) }
{
    let to = k.min(len + 1);
    if at < to {
        push(ids, at, to, id);
        push(sims, at, to, similarity);
    }
    to
}

/// Feeds the entry to the list that two arrays hold, and answers its length: so that a loop that feeds many candidates moves no set about. Most of them
/// meet a full list with a greater last score, so that is looked at first.
pub fn insert(
    ids: &mut [u32; 256],
    sims: &mut [f32; 256],
    len: usize,
    k: usize,
    id: u32,
    similarity: f32,
) -> usize
    requires len_le_k { (len ≤ k) × (k ≤ 256) }
    requires ids_len { (length ids.old ≡ 256) × (length sims.old ≡ 256) }
    ensures { set_of ids.new sims.new result k 1 ≡ fed_set (set_of ids.old sims.old len k 0) (entry id similarity) }
{
    if closed_to(sims, len, k, similarity) {
        return len;
    }
    match place_of(ids, sims, len, id, similarity) {
        None => len,
        Some(at) => put(ids, sims, at, len, k, id, similarity),
    }
}

/// The set after the entry, which is counted whether or not it is placed.
pub fn ranked(set: ResultSet, id: u32, similarity: f32) -> ResultSet
    requires len_le_k { (set.len ≤ set.k) × (set.k ≤ 256) }
    requires checked_bound { set.checked < 4294967295 }
    ensures { result ≡ fed_set set (entry id similarity) }
{
    let k = set.k;
    let checked = set.checked + 1;
    let mut ids = set.ids;
    let mut sims = set.sims;
    let len = insert(&mut ids, &mut sims, set.len, k, id, similarity);
    ResultSet {
        ids,
        sims,
        len,
        k,
        checked,
    }
}
