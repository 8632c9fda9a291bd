// Puts the cases of standard input to the calls on vectors, bases and faces, and writes what they answer, a line a case.
// A case is a line of numbers in hexadecimal digits: the kind, a number, n and m; then the patterns of n floats and of m floats.
//   1 dot_product, 2 distance: of the n and the m floats
//   3 normalize: of the n floats
//   4 orthonormalize: of the n floats, into a buffer that holds the m floats; the number is 65,536 times the rounds, and d
//   5 find_face_idx, 6 spill_faces: of the n floats, the number is the spill
// Kind 0, a case that the lists have no room for, and the end of the input end the run; a write that fails stops nothing.
// A line is the refusal's number, then what the call gives, then what it leaves in lent memory: floats as patterns, faces as numbers.
#![tactic(auto)]

ghost use Rattle.std.specs.Prelude.{◌≡◌, nat_abs};
ghost use Rattle.paper.specs.Refusals.{code_of};

use paper::Refusal;
use recorded::inner::{fill, float, number, passed_over, show_float, show_floats};
use std::io::Read;

// One face. Answers its absolute value.
fn put_face(rt: &impl Print, face: i32) -> u32
    ensures { result ≡ nat_abs face }
{
    passed_over(print!(rt; " {face}"));
    face.unsigned_abs()
}

// A float or a refusal. Answers the refusal's number.
fn put_float(rt: &impl Print, answer: Result<f32, Refusal>) -> u32
    ensures { result ≡ code_of answer }
{
    let code = paper::code(answer);
    passed_over(print!(rt; "{code}"));
    if let Ok(x) = answer {
        show_float(rt, x);
    }
    code
}

// A face or a refusal. Answers the refusal's number.
fn put_face_answer(rt: &impl Print, answer: Result<i32, Refusal>) -> u32
    ensures { result ≡ code_of answer }
{
    let code = paper::code(answer);
    passed_over(print!(rt; "{code}"));
    if let Ok(face) = answer {
        put_face(rt, face);
    }
    code
}

// A refusal's number, and what the call leaves.
fn put_left(rt: &impl Print, answer: Result<(), Refusal>, v: &[f32]) {
    passed_over(print!(rt; "{}", paper::code(answer)));
    show_floats(rt, v);
}

// A case of kind 4. Each zero it leaves is shown as +0.0: orthonormalize of the Rust adds from -0.0, so the sign of a zero is not compared there.
fn of_basis(rt: &impl Print, number: usize, a: &[f32], b: &mut [f32]) {
    let answer = ortho::orthonormalize(a, b, number % 65536, number / 65536);
    for x in b.iter_mut() {
        if *x == 0.0 {
            *x = 0.0;
        }
    }
    put_left(rt, answer, b);
}

// A case of kind 6.
fn of_spill(rt: &impl Print, spill: usize, a: &mut [f32]) {
    let answer = faces::spill_faces(a, spill);
    passed_over(print!(rt; "{}", paper::code(answer)));
    if let Ok(spilled) = answer {
        for face in spilled.faces.iter().take(spilled.count) {
            put_face(rt, *face);
        }
    }
    show_floats(rt, a);
}

// Puts one case to its call, and writes what is answered. (By the number of the input; `one_case` looks only whether it is 0.)
fn answer(rt: &impl Print, kind: u64, number: usize, a: &mut [f32], b: &mut [f32]) {
    match kind {
        1 => {
            put_float(rt, vector::dot_product(a, b));
        }
        2 => {
            put_float(rt, vector::distance(a, b));
        }
        3 => put_left(rt, vector::normalize(a), a),
        4 => of_basis(rt, number, a, b),
        5 => {
            put_face_answer(rt, faces::find_face_idx(a));
        }
        _ => of_spill(rt, number, a),
    }
    passed_over(println!(rt));
}

// One case: read, put to its call, and answered. False where the input ends or the lists have no room for the case.
fn one_case(rt: &impl Print, input: &mut impl Read, a: &mut [f32], b: &mut [f32]) -> bool {
    let kind = number(input);
    let given = number(input) as usize;
    let n = number(input) as usize;
    let m = number(input) as usize;
    if kind == 0 || n > a.len() || m > b.len() {
        return false;
    }
    fill(input, &mut a[..n], float);
    fill(input, &mut b[..m], float);
    answer(rt, kind, given, &mut a[..n], &mut b[..m]);
    true
}

fn main(rt: HostRuntime) {
    let mut input = rt.reader();
    let mut a = [0.0f32; 1056];
    let mut b = [0.0f32; 1056];
    // As many cases as there are: a count that is never used up.
    for _ in 0..u64::MAX {
        if !one_case(&rt, &mut input, &mut a, &mut b) {
            break;
        }
    }
}
