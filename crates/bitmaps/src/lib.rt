// Sets of ids in lent words: id i is bit i % 64 of word i / 64. A set of capacity `cap` has cap / 64 words.
#![tactic(auto)]

ghost use Rattle.std.specs.Prelude.{◌≡◌, ◌*◌, ◌<◌, ◌≤◌, length, false, IfOk};
ghost use Rattle.paper.specs.Refusals.{code_of, Answers};
ghost use Rattle.bitmaps.specs.Words.{union, exclusive, without, inserted, size, holds, is_empty, empty};
ghost use Rattle.bitmaps.specs.Walk.{ids_from, first_of};
ghost use Rattle.bitmaps.specs.Answers.{set_fault, pair_fault, id_fault, Changed};
ghost use Rattle.bitmaps.specs.Laws.{Laws};

use paper::Refusal;

pub mod inner;

// Refuses a call on one set: 1 for the capacity, then 2 for the set's length.
#[tactic(auto, unfolding(crate::specs::Answers::set_fault), using(paper::proofs::GeometryFacts::cap_facts))]
fn check_set(cap: usize, words: usize) -> Result<(), Refusal>
    ensures told { code_of result ≡ set_fault cap words }
    ensures few { IfOk result (λ _. words ≤ 1024) }
    ensures ids { IfOk result (λ _. words * 64 ≡ cap) }
{
    if !paper::capacity_ok(cap) {
        return Err(Refusal::WrongGeometry);
    }
    if words != cap / 64 {
        return Err(Refusal::WrongLength);
    }
    Ok(())
}

// The same for two sets.
#[tactic(auto, unfolding(crate::specs::Answers::set_fault, crate::specs::Answers::pair_fault))]
fn check_pair(cap: usize, words: usize, other: usize) -> Result<(), Refusal>
    ensures told { code_of result ≡ pair_fault cap words other }
    ensures same { IfOk result (λ _. words ≡ other) }
{
    check_set(cap, words)?;
    if other != cap / 64 {
        return Err(Refusal::WrongLength);
    }
    Ok(())
}

// The same for one set and an id, which is refused with 3 where it is not below the capacity.
#[tactic(auto, unfolding(crate::specs::Answers::set_fault, crate::specs::Answers::id_fault))]
fn check_id(cap: usize, words: usize, id: usize) -> Result<(), Refusal>
    ensures told { code_of result ≡ id_fault cap words id }
    ensures within { IfOk result (λ _. id < words * 64) }
{
    check_set(cap, words)?;
    if id >= cap {
        return Err(Refusal::WrongId);
    }
    Ok(())
}

// Makes the set empty. Refuses 1 and 2, and changes nothing then.
pub fn clear(cap: usize, set: &mut [u64]) -> Result<(), Refusal>
    ensures { Changed (set_fault cap (length set.old)) (empty (length set.old)) set.old (code_of result) set.new }
{
    check_set(cap, set.len())?;
    inner::clear(set);
    Ok(())
}

// The number of ids. Refuses 1 and 2.
pub fn count(cap: usize, set: &[u64]) -> Result<u32, Refusal>
    ensures { Answers result (set_fault cap (length set.now)) (size set.now) 0 }
{
    check_set(cap, set.len())?;
    Ok(inner::count(set))
}

// Whether there is no id. Refuses 1 and 2.
pub fn is_empty(cap: usize, set: &[u64]) -> Result<bool, Refusal>
    ensures { Answers result (set_fault cap (length set.now)) (is_empty set.now) false }
{
    check_set(cap, set.len())?;
    Ok(inner::is_empty(set))
}

// Puts an id into the set. Refuses 1, 2 and 3, and changes nothing then.
pub fn add(cap: usize, set: &mut [u64], id: usize) -> Result<(), Refusal>
    ensures { Changed (id_fault cap (length set.old) id) (inserted set.old id) set.old (code_of result) set.new }
{
    check_id(cap, set.len(), id)?;
    inner::add(set, id);
    Ok(())
}

// Whether the set has an id. Refuses 1, 2 and 3.
pub fn contains(cap: usize, set: &[u64], id: usize) -> Result<bool, Refusal>
    ensures { Answers result (id_fault cap (length set.now) id) (holds set.now id) false }
{
    check_id(cap, set.len(), id)?;
    Ok(inner::contains(set, id))
}

// The walk: the next id at or after a place. Whoever asks again from one past each answer meets every id once, rising. Refuses 1 and 2; from a
// place at or past the capacity there is nothing.
pub fn next(cap: usize, set: &[u64], from: usize) -> Result<Option<usize>, Refusal>
    ensures { Answers result (set_fault cap (length set.now)) (first_of (ids_from set.now from)) None }
{
    check_set(cap, set.len())?;
    Ok(inner::next(set, from))
}

// These three are the tests and one inner call each; what they share is `check_pair` and the inner `by_word`, and a parameter for the call would be no plainer.

// Takes the second set's ids out of the first. Refuses 1 and 2, and changes nothing then.
pub fn and_not(cap: usize, a: &mut [u64], b: &[u64]) -> Result<(), Refusal>
    ensures { Changed (pair_fault cap (length a.old) (length b.now)) (without a.old b.now) a.old (code_of result) a.new }
{
    check_pair(cap, a.len(), b.len())?;
    inner::and_not(a, b);
    Ok(())
}

// Puts the second set's ids into the first. Refuses 1 and 2, and changes nothing then.
pub fn or(cap: usize, a: &mut [u64], b: &[u64]) -> Result<(), Refusal>
    ensures { Changed (pair_fault cap (length a.old) (length b.now)) (union a.old b.now) a.old (code_of result) a.new }
{
    check_pair(cap, a.len(), b.len())?;
    inner::or(a, b);
    Ok(())
}

// Leaves in the first set the ids that just one of the two has. Refuses 1 and 2, and changes nothing then.
pub fn xor(cap: usize, a: &mut [u64], b: &[u64]) -> Result<(), Refusal>
    ensures { Changed (pair_fault cap (length a.old) (length b.now)) (exclusive a.old b.now) a.old (code_of result) a.new }
{
    check_pair(cap, a.len(), b.len())?;
    inner::xor(a, b);
    Ok(())
}

// The laws of this crate, claimed: specs/Laws.antt says each of them.
pub fn laws()
    ensures { Laws }
{}
