// Feeds result sets from standard input and prints what they then hold, so that it can be held against what the Rust answered.
// The input is words of eight hexadecimal digits, each with one byte behind it. A case is its kind, then
//   0  k, m, m times id and score: a set fed by value; prints checked, the length and the entries
//   1  the same, for a set fed in place
//   2  at, then two times k, m and m times id and score: the recall of the first set against the second; prints its 64 bits
//   3  a set's k, len, checked, one place with its id and score, then the id and score to feed: prints whether the set is well formed and whether it is empty, then
//      the refusal, and len and checked after it
//   4  at, then two times a set's k, len, checked, one place with its id and score: prints the refusal of a recall
#![tactic(auto)]

ghost use Rattle.std.specs.Prelude.{◌≡◌, ◌-◌, ◌<◌, ◌≤◌, length, drop};
ghost use Rattle.result.specs.Sets.{feed_of, fed_or};

use paper::Refusal;
use recorded::buffered::read_input;
use recorded::inner::{passed_over, show_float};
use result::inner::empty;
use result::{ResultSet, SearchResult};

// Eight digits and the byte behind them.
type Word = [u8; 9];

// ---- reading

// What a hexadecimal digit stands for, and some number for any other byte. (By hand: `to_digit` has no number for those.)
fn digit(b: u8) -> u32
    ensures { result < 16 }
{
    u32::from((b & 15) + (b >> 6) * 9) & 15
}

// The next word, and 0 past the end.
fn number(words: &mut &[Word]) -> u32
    ensures { words.new.now ≡ drop 1 words.old.now }
{
    let Some((word, rest)) = words.split_first() else {
        return 0;
    };
    *words = rest;
    word.iter()
        .take(8)
        .fold(0, |value, b| value << 4 | digit(*b))
}

fn score(words: &mut &[Word]) -> f32
    ensures { words.new.now ≡ drop 1 words.old.now }
{
    sqrt::of_bits(number(words))
}

// One feed of a set that stays in a local and is lent.
fn fed_in_place(set: ResultSet, id: u32, similarity: f32) -> Result<ResultSet, Refusal>
    ensures { fed_or set result ≡ feed_of set id similarity }
{
    let mut kept = set;
    kept.add_result(id, similarity)?;
    Ok(kept)
}

// One feed, by value or in place.
fn fed(set: ResultSet, id: u32, similarity: f32, in_place: bool) -> Result<ResultSet, Refusal>
    ensures { fed_or set result ≡ feed_of set id similarity }
{
    if in_place {
        return fed_in_place(set, id, similarity);
    }
    set.feed(id, similarity)
}

// The set becomes the one that k, m and m entries leave; a refusal ends the feeding.
fn grow(words: &mut &[Word], set: &mut ResultSet, in_place: bool) -> Result<(), Refusal>
    ensures { length words.new.now ≤ length words.old.now - 2 }
{
    let k = number(words) as usize;
    let m = number(words) as usize;
    let mut entries: &[Word] = words;
    *words = words.get(2 * m..).unwrap_or(&[]);
    *set = ResultSet::new(k)?;
    for _ in 0..m {
        let id = number(&mut entries);
        let similarity = score(&mut entries);
        *set = fed(*set, id, similarity, in_place)?;
    }
    Ok(())
}

// A set with six words for k, len, checked, a place, and the id and score there.
fn made_up(words: &mut &[Word]) -> ResultSet
    ensures { words.new.now ≡ drop 6 words.old.now }
{
    let mut set = ResultSet {
        ids: [0; 256],
        sims: [0.0; 256],
        k: number(words) as usize,
        len: number(words) as usize,
        checked: number(words),
    };
    let place = number(words) as usize;
    let id = number(words);
    let similarity = score(words);
    if place < 256 {
        set.ids[place] = id;
        set.sims[place] = similarity;
    }
    set
}

// ---- showing

fn show_entry(rt: &impl Print, e: SearchResult) {
    passed_over(print!(rt; " {}", e.id));
    show_float(rt, e.similarity);
}

// The count, the length and the entries.
fn show(rt: &impl Print, set: ResultSet) {
    let n = set.len();
    passed_over(print!(rt; "{} {n}", set.checked));
    for i in 0..n {
        match set.result_at(i) {
            Some(e) => show_entry(rt, e),
            None => passed_over(print!(rt; " ")),
        }
    }
    passed_over(println!(rt));
}

fn show_recall(rt: &impl Print, answer: Result<f64, Refusal>) {
    match answer {
        Ok(x) => {
            if x.is_nan() {
                passed_over(println!(rt; "nan"));
            } else {
                passed_over(println!(rt; "{:016x}", x.to_bits()));
            }
        }
        Err(refusal) => passed_over(println!(rt; "{refusal}")),
    }
}

fn yes(b: bool) -> &'static str {
    if b { "yes" } else { "no" }
}

// ---- cases

// Kinds 0 and 1.
fn feeding(rt: &impl Print, words: &mut &[Word], in_place: bool)
    ensures { length words.new.now ≤ length words.old.now - 2 }
{
    let mut set = empty(0);
    match grow(words, &mut set, in_place) {
        Ok(()) => show(rt, set),
        Err(refusal) => passed_over(println!(rt; "{refusal}")),
    }
}

// Kind 2. Of a refused feeding it takes what it left.
fn recalling(rt: &impl Print, words: &mut &[Word])
    ensures { length words.new.now ≤ length words.old.now - 5 }
{
    let at = number(words);
    let mut a = empty(0);
    let mut b = empty(0);
    let _ = grow(words, &mut a, false);
    let _ = grow(words, &mut b, false);
    show_recall(rt, a.compute_recall(b, at))
}

// Kind 3.
fn refusing(rt: &impl Print, words: &mut &[Word])
    ensures { words.new.now ≡ drop 8 words.old.now }
{
    let set = made_up(words);
    let id = number(words);
    let similarity = score(words);
    passed_over(print!(rt; "{} {} ", yes(set.well_formed()), yes(set.is_empty())));
    let answer = set.feed(id, similarity);
    let after = answer.unwrap_or(set);
    passed_over(println!(rt; "{} {} {}", paper::code(answer), after.len, after.checked));
}

// Kind 4.
fn recall_refusing(rt: &impl Print, words: &mut &[Word])
    ensures { words.new.now ≡ drop 13 words.old.now }
{
    let at = number(words);
    let a = made_up(words);
    let b = made_up(words);
    passed_over(println!(rt; "{}", paper::code(a.compute_recall(b, at))));
}

fn case(rt: &impl Print, words: &mut &[Word])
    ensures { length words.new.now ≤ length words.old.now - 3 }
{
    match number(words) {
        0 => feeding(rt, words, false),
        1 => feeding(rt, words, true),
        2 => recalling(rt, words),
        3 => refusing(rt, words),
        _ => recall_refusing(rt, words),
    }
}

fn main(rt: HostRuntime) {
    let mut buffer = [0u8; 262144];
    let (mut words, _) = read_input(&mut buffer).as_chunks();
    // As many cases as there are: a count that is never used up.
    for _ in 0..u64::MAX {
        if words.is_empty() {
            break;
        }
        case(&rt, &mut words);
    }
}
