// Puts recorded copies of vectors to marshal and unmarshal, and writes what these leave in the words of the record. The input has lines of a letter and
// numbers in hexadecimal digits:
//   c MODE N X.. LENGTH BYTE..   copies N components out, into that many bytes
//   b MODE LENGTH BYTE..         reads that many bytes in
// A line that starts with another letter ends the run, and so does the end of the input; a write that fails stops nothing. A refusal is written as `refused` and its number.
#![tactic(auto)]

use recorded::inner::{
    byte, fill, float, letter, number, passed_over, show_all, show_floats, show_refusal,
};
use std::io::Read;

// A line `c`: the components are copied out into the bytes, which are shown before and after.
fn copy_line(rt: &impl Print, input: &mut impl Read) {
    let mode = number(input) as usize;
    let mut v = [0.0f32; 16];
    let n = v.len().min(number(input) as usize);
    let v = &mut v[..n];
    fill(input, v, float);
    let mut array = [0u8; 72];
    let len = array.len().min(number(input) as usize);
    let array = &mut array[..len];
    fill(input, array, byte);
    passed_over(print!(rt; "copy {mode} {n}"));
    show_floats(rt, v);
    passed_over(print!(rt; " {len}"));
    show_all(rt, array, 2);
    let answer = quantization::marshal(mode, v, array);
    show_all(rt, array, 2);
    show_refusal(rt, answer);
}

// How many components that many bytes hold.
fn components_in(len: usize, mode: usize) -> usize {
    if mode == 0 { len / 4 } else { len / 2 }
}

// A line `b`: the bytes are read in, and shown with the components.
fn read_line(rt: &impl Print, input: &mut impl Read) {
    let mode = number(input) as usize;
    let mut array = [0u8; 72];
    let len = array.len().min(number(input) as usize);
    let array = &mut array[..len];
    fill(input, array, byte);
    passed_over(print!(rt; "read {mode} {len}"));
    show_all(rt, array, 2);
    let mut v = [0.0f32; 16];
    let answer = quantization::unmarshal(mode, array, &mut v);
    let n = v.len().min(components_in(len, mode));
    show_floats(rt, &v[..n]);
    show_refusal(rt, answer);
}

fn main(rt: HostRuntime) {
    let mut input = rt.reader();
    // As many cases as there are: a count that is never used up.
    for _ in 0..u64::MAX {
        match letter(&mut input) {
            b'c' => copy_line(&rt, &mut input),
            b'b' => read_line(&rt, &mut input),
            _ => break,
        }
    }
}
