// A line of additions: `a` adds to the index; `d` deals the additions to it and to a second index by the parity of their ids, and merges the second into
// it. Of these functions it is proved that they are safe and end. None can fail: what the input does not hold is read as 0, and a write that fails is passed
// over.
use recorded::inner::{passed_over, shown};
use replay_drawing::inner::Case;
use replay_filling::inner::{add_all, join};
use std::io::Read;

// A line `a`.
pub fn add(
    rt: &impl Print,
    input: &mut impl Read,
    case: Case,
    seed: &mut u32,
    bases: &[f32],
    faces: &mut [u64],
    marks: &mut [u64],
    vectors: &mut [u8],
) {
    passed_over(print!(rt; "add"));
    let m = shown(rt, input);
    add_all(rt, case, m, seed, None, bases, faces, marks, vectors);
    passed_over(println!(rt));
}

// A second index, empty at first and as long as the first, gets the additions that the first leaves out, and is merged.
fn second(
    rt: &impl Print,
    case: Case,
    m: u64,
    seed: &mut u32,
    left_out: usize,
    bases: &[f32],
    faces: &mut [u64],
    marks: &mut [u64],
    vectors: &mut [u8],
    faces2: &mut [u64],
    marks2: &mut [u64],
    vectors2: &mut [u8],
) {
    let nf = faces.len().min(faces2.len());
    let nm = marks.len().min(marks2.len());
    let nv = vectors.len().min(vectors2.len());
    let faces2 = &mut faces2[..nf];
    let marks2 = &mut marks2[..nm];
    let vectors2 = &mut vectors2[..nv];
    add_all(
        rt,
        case,
        m,
        seed,
        Some(left_out),
        bases,
        faces2,
        marks2,
        vectors2,
    );
    join(
        rt,
        case.geometry,
        faces,
        marks,
        vectors,
        faces2,
        marks2,
        vectors2,
    );
}

// The same in memory of its own, all zeros, which is an empty index.
fn apart(
    rt: &impl Print,
    case: Case,
    m: u64,
    seed: &mut u32,
    left_out: usize,
    bases: &[f32],
    faces: &mut [u64],
    marks: &mut [u64],
    vectors: &mut [u8],
) {
    second(
        rt,
        case,
        m,
        seed,
        left_out,
        bases,
        faces,
        marks,
        vectors,
        &mut [0u64; 8192],
        &mut [0u64; 16],
        &mut [0u8; 131072],
    );
}

// A line `d`. The second index leaves out the ids whose parity is the mode, so none in a mode that is no mode; the first leaves out the odd ids in mode 0,
// else the even ones.
pub fn deal(
    rt: &impl Print,
    input: &mut impl Read,
    case: Case,
    seed: &mut u32,
    bases: &[f32],
    faces: &mut [u64],
    marks: &mut [u64],
    vectors: &mut [u8],
) {
    passed_over(print!(rt; "add"));
    let m = shown(rt, input);
    let second = case.geometry.mode;
    let first = if second == 0 { 1 } else { 0 };
    let mut again = *seed;
    add_all(rt, case, m, seed, Some(first), bases, faces, marks, vectors);
    apart(
        rt, case, m, &mut again, second, bases, faces, marks, vectors,
    );
}
