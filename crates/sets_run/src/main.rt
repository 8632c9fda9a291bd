// Runs every public call on sets and shows its answer and what it left. The input has lines of a letter and numbers in hexadecimal digits, each number with
// one byte after it:
//   a LEN WORD ..   the first memory becomes LEN words
//   b LEN WORD ..   so does the second
//   LETTER CAP X    a call with capacity CAP on the memories, as long as they are: c clear, n count, e is_empty, i add id X, h contains id X, w next from X,
//                   o or, x xor, d and_not; these three show both memories
#![tactic(auto)]

use paper::Refusal;
use recorded::buffered::{letter, load, number, read_input};
use recorded::inner::{passed_over, show_all};

fn show_asked(rt: &impl Print, answer: Result<bool, Refusal>) {
    match answer {
        Ok(true) => passed_over(print!(rt; "yes")),
        Ok(false) => passed_over(print!(rt; "no")),
        Err(refusal) => passed_over(print!(rt; "{refusal}")),
    }
}

fn show_counted(rt: &impl Print, answer: Result<u32, Refusal>) {
    match answer {
        Ok(n) => passed_over(print!(rt; "{n}")),
        Err(refusal) => passed_over(print!(rt; "{refusal}")),
    }
}

fn show_walked(rt: &impl Print, answer: Result<Option<usize>, Refusal>) {
    match answer {
        Ok(Some(i)) => passed_over(print!(rt; "at {i}")),
        Ok(None) => passed_over(print!(rt; "nothing")),
        Err(refusal) => passed_over(print!(rt; "{refusal}")),
    }
}

// A call that changes the first memory: its number and the words after it.
fn show_changed(rt: &impl Print, answer: Result<(), Refusal>, words: &[u64]) {
    passed_over(print!(rt; "{}", paper::code(answer)));
    show_all(rt, words, 1);
}

// The same of a call on both memories, and the words of the second.
fn show_both(rt: &impl Print, answer: Result<(), Refusal>, a: &[u64], b: &[u64]) {
    show_changed(rt, answer, a);
    show_all(rt, b, 1);
}

// The call that a letter names; none for any other letter.
fn call(rt: &impl Print, letter: u8, cap: usize, x: usize, a: &mut [u64], b: &[u64]) {
    match letter {
        b'c' => show_changed(rt, bitmaps::clear(cap, a), a),
        b'i' => show_changed(rt, bitmaps::add(cap, a, x), a),
        b'n' => show_counted(rt, bitmaps::count(cap, a)),
        b'e' => show_asked(rt, bitmaps::is_empty(cap, a)),
        b'h' => show_asked(rt, bitmaps::contains(cap, a, x)),
        b'w' => show_walked(rt, bitmaps::next(cap, a, x)),
        b'o' => show_both(rt, bitmaps::or(cap, a, b), a, b),
        b'x' => show_both(rt, bitmaps::xor(cap, a, b), a, b),
        b'd' => show_both(rt, bitmaps::and_not(cap, a, b), a, b),
        _ => {}
    }
    passed_over(println!(rt));
}

fn main(rt: HostRuntime) {
    let mut buffer = [0u8; 131072];
    let mut input = read_input(&mut buffer).iter();
    let mut a = [0u64; 1056];
    let mut b = [0u64; 1056];
    let mut first = 0;
    let mut second = 0;
    // As many cases as there are: a count that is never used up.
    for _ in 0..u64::MAX {
        let Some(letter) = letter(&mut input) else {
            break;
        };
        match letter {
            b'a' => first = load(&mut input, &mut a),
            b'b' => second = load(&mut input, &mut b),
            _ => {
                let cap = number(&mut input) as usize;
                let id = number(&mut input) as usize;
                call(&rt, letter, cap, id, &mut a[..first], &b[..second]);
            }
        }
    }
}
