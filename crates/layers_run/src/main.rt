// Runs every public call on counting layers and shows its answer and what it left. The input has lines of a letter and numbers in hexadecimal digits, each
// number with one byte after it:
//   a LEN WORD ..   the layers become LEN words
//   b LEN WORD ..   so does the set
//   LETTER CAP N K  a call with capacity CAP on N layers: m or with the set, g cardinalities, p top_k with search_k K, q top_k_number with search_k K
#![tactic(auto)]

use counting_bitmap::Counts;
use paper::Refusal;
use recorded::buffered::{letter, load, number, read_input};
use recorded::inner::{passed_over, show_all};

// The dropped count, and what stands in both memories.
fn show_merged(rt: &impl Print, answer: Result<u32, Refusal>, a: &[u64], b: &[u64]) {
    match answer {
        Ok(n) => passed_over(print!(rt; "dropped {n}")),
        Err(refusal) => passed_over(print!(rt; "{refusal}")),
    }
    show_all(rt, a, 1);
    passed_over(print!(rt; " |"));
    show_all(rt, b, 1);
}

// The counts, each after a blank, and `left` for each place past them that is not 0.
fn show_counts(rt: &impl Print, answer: Counts) {
    passed_over(print!(rt; "counts"));
    for (i, count) in answer.counts.iter().enumerate() {
        if i < answer.count {
            passed_over(print!(rt; " {count}"));
        } else if *count != 0 {
            passed_over(print!(rt; " left"));
        }
    }
}

fn show_counted(rt: &impl Print, answer: Result<Counts, Refusal>) {
    match answer {
        Ok(counts) => show_counts(rt, counts),
        Err(refusal) => passed_over(print!(rt; "{refusal}")),
    }
}

fn show_chosen(rt: &impl Print, answer: Result<usize, Refusal>) {
    match answer {
        Ok(i) => passed_over(print!(rt; "layer {i}")),
        Err(refusal) => passed_over(print!(rt; "{refusal}")),
    }
}

// The call that a letter names; none for any other letter.
fn call(rt: &impl Print, letter: u8, cap: usize, n: usize, k: usize, a: &mut [u64], b: &mut [u64]) {
    match letter {
        b'm' => show_merged(rt, counting_bitmap::or(cap, n, a, b), a, b),
        b'g' => show_counted(rt, counting_bitmap::cardinalities(cap, n, a)),
        b'p' => {
            passed_over(print!(rt; "part"));
            show_all(rt, counting_bitmap::top_k(cap, n, a, k), 1);
        }
        b'q' => show_chosen(rt, counting_bitmap::top_k_number(cap, n, a, k)),
        _ => {}
    }
    passed_over(println!(rt));
}

fn main(rt: HostRuntime) {
    let mut buffer = [0u8; 131072];
    let mut input = read_input(&mut buffer).iter();
    let mut a = [0u64; 1056];
    let mut b = [0u64; 1056];
    let mut first = 0;
    let mut second = 0;
    // As many cases as there are: a count that is never used up.
    for _ in 0..u64::MAX {
        let Some(letter) = letter(&mut input) else {
            break;
        };
        match letter {
            b'a' => first = load(&mut input, &mut a),
            b'b' => second = load(&mut input, &mut b),
            _ => {
                let cap = number(&mut input) as usize;
                let n = number(&mut input) as usize;
                let k = number(&mut input) as usize;
                call(&rt, letter, cap, n, k, &mut a[..first], &mut b[..second]);
            }
        }
    }
}
