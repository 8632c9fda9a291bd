// Replays recorded runs of the index: makes the inputs, puts them to the calls, and writes what these answer in the words of the record. The input has
// numbers in hexadecimal digits, each with one byte after it: first the count of runs, then the runs. A run is nine numbers, the count of its lines, and
// the lines, a letter and numbers each:
//   D N CAPACITY MODE ROUNDS GRAIN SCALE AIM SEED LINES   an empty index and drawn bases
//   a M                                                   adds M drawn vectors under drawn ids
//   d M                                                   the same additions dealt to two indexes, of which the second is merged into the first, twice
//   f K SEARCH_K SPILL                                    a search for a drawn target
//   s K                                                   a scan for a drawn target
//   m                                                     digests of face sets, marks and stored vectors
// Another letter counts as `d` below `f`, and as `s` above it. What the input does not hold is read as 0, also as a letter; a write that fails stops nothing.
// A refusal that is not in the record is written as `refused` and its number.
#![tactic(auto)]

use paper::Geometry;
use recorded::inner::{float, letter, low, number, passed_over, show_refused, shown};
use replay_asking::inner::{find, memory, scan};
use replay_dealing::inner::{add, deal};
use replay_drawing::inner::Case;
use replay_filling::inner::start;
use std::io::Read;

// Reads a float and shows its pattern.
fn shown_float(rt: &impl Print, input: &mut impl Read) -> f32 {
    let pattern = low(number(input));
    passed_over(print!(rt; " {pattern:08x}"));
    float(u64::from(pattern))
}

// Reads the numbers of a run up to the aim, and shows them.
fn read_case(rt: &impl Print, input: &mut impl Read) -> Case {
    passed_over(print!(rt; "run"));
    Case {
        geometry: Geometry {
            d: shown(rt, input) as usize,
            n: shown(rt, input) as usize,
            cap: shown(rt, input) as usize,
            mode: shown(rt, input) as usize,
        },
        rounds: shown(rt, input) as usize,
        grain: (shown(rt, input) & 0xffff) as u16,
        scale: shown_float(rt, input),
        aim: shown_float(rt, input),
    }
}

// One line.
fn line(
    rt: &impl Print,
    input: &mut impl Read,
    case: Case,
    seed: &mut u32,
    bases: &[f32],
    faces: &mut [u64],
    marks: &mut [u64],
    vectors: &mut [u8],
) {
    match letter(input) {
        b'a' => add(rt, input, case, seed, bases, faces, marks, vectors),
        0..=b'e' => deal(rt, input, case, seed, bases, faces, marks, vectors),
        b'f' => find(rt, input, case, seed, bases, faces, marks, vectors),
        b'm' => memory(rt, faces, marks, vectors),
        _ => scan(rt, input, case, seed, marks, vectors),
    }
}

// A run over exact memory: the bases, an empty index, and the lines after their count.
fn play(
    rt: &impl Print,
    input: &mut impl Read,
    case: Case,
    bases: &mut [f32],
    faces: &mut [u64],
    marks: &mut [u64],
    vectors: &mut [u8],
) {
    let mut seed = low(shown(rt, input));
    start(rt, case, &mut seed, bases);
    let answer = index_memory::new_vector_store(faces, marks, vectors, case.geometry);
    show_refused(rt, answer);
    for _ in 0..number(input) {
        line(rt, input, case, &mut seed, bases, faces, marks, vectors);
    }
}

// One run, of the lent memory as much as its geometry asks for.
fn run(
    rt: &impl Print,
    input: &mut impl Read,
    bases: &mut [f32],
    faces: &mut [u64],
    marks: &mut [u64],
    vectors: &mut [u8],
) {
    let case = read_case(rt, input);
    let lengths = case.geometry.lengths();
    let nb = lengths.bases.min(bases.len());
    let nf = lengths.faces.min(faces.len());
    let nm = lengths.marks.min(marks.len());
    let nv = lengths.vectors.min(vectors.len());
    play(
        rt,
        input,
        case,
        &mut bases[..nb],
        &mut faces[..nf],
        &mut marks[..nm],
        &mut vectors[..nv],
    );
}

// The lent memory, here and in the lines, is what the largest of the recorded runs ask for, each length by itself.
fn main(rt: HostRuntime) {
    let mut input = rt.reader();
    let mut bases = [0.0f32; 8192];
    let mut faces = [0u64; 8192];
    let mut marks = [0u64; 16];
    let mut vectors = [0u8; 131072];
    for _ in 0..number(&mut input) {
        run(
            &rt,
            &mut input,
            &mut bases,
            &mut faces,
            &mut marks,
            &mut vectors,
        );
    }
}
