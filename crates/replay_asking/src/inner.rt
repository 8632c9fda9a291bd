// A line of questions: `f` a search, `s` a scan, each for a drawn target, `m` digests of face sets, marks and stored vectors. Of these functions it is proved
// that they are safe and end. None can fail: what the input does not hold is read as 0, and a write that fails is passed over.
use paper::Refusal;
use recorded::inner::{passed_over, show_float, shown};
use replay_drawing::inner::{Case, digest_bytes, digest_words, draw_vector};
use result::ResultSet;
use std::io::Read;
use vector_store::Query;

// ---- showing

// The count, the length and the entries, and the end of the line.
fn show_list(rt: &impl Print, set: ResultSet) {
    let n = set.len();
    passed_over(print!(rt; " {} {n}", set.checked));
    for i in 0..n {
        match set.result_at(i) {
            Some(e) => {
                passed_over(print!(rt; " {}", e.id));
                show_float(rt, e.similarity);
            }
            None => passed_over(print!(rt; " past")),
        }
    }
    passed_over(println!(rt));
}

// The list; or `none` where no layer holds as many ids as asked for, and the number of any other refusal.
fn show_answer(rt: &impl Print, answer: Result<ResultSet, Refusal>) {
    match answer {
        Ok(set) => show_list(rt, set),
        Err(Refusal::NoLayer) => passed_over(println!(rt; " none")),
        Err(refusal) => passed_over(println!(rt; " {refusal}")),
    }
}

// ---- questions

// A line `f`: a search for a drawn target, with exact work memory.
pub fn find(
    rt: &impl Print,
    input: &mut impl Read,
    case: Case,
    seed: &mut u32,
    bases: &[f32],
    faces: &[u64],
    marks: &[u64],
    vectors: &[u8],
) {
    passed_over(print!(rt; "find"));
    let query = Query {
        k: shown(rt, input) as usize,
        search_k: shown(rt, input) as usize,
        spill: shown(rt, input) as usize,
    };
    let g = case.geometry;
    let mut v = [0.0f32; 64];
    let mut work = [0.0f32; 64];
    let mut layers = [0u64; 128];
    let mut set = [0u64; 16];
    draw_vector(&mut v, g.d, seed, case.grain, case.aim);
    let len = g.d.min(64);
    let nl = g.lengths().layers.min(128);
    let ns = marks.len().min(16);
    let found = vector_store::find_nearest(
        bases,
        faces,
        marks,
        vectors,
        &mut work[..len],
        &mut layers[..nl],
        &mut set[..ns],
        &v[..len],
        g,
        query,
    );
    show_answer(rt, found.map(|nearest| nearest.set));
}

// A line `s`: a scan for a drawn target.
pub fn scan(
    rt: &impl Print,
    input: &mut impl Read,
    case: Case,
    seed: &mut u32,
    marks: &[u64],
    vectors: &[u8],
) {
    passed_over(print!(rt; "scan"));
    let k = shown(rt, input) as usize;
    let g = case.geometry;
    let mut v = [0.0f32; 64];
    draw_vector(&mut v, g.d, seed, case.grain, case.aim);
    let len = g.d.min(64);
    let found = vector_store::full_table_scan(marks, vectors, &v[..len], g, k);
    show_answer(rt, found);
}

// A line `m`.
pub fn memory(rt: &impl Print, faces: &[u64], marks: &[u64], vectors: &[u8]) {
    let faces = digest_words(faces);
    let marks = digest_words(marks);
    let vectors = digest_bytes(vectors);
    passed_over(println!(rt; "memory {faces:08x} {marks:08x} {vectors:08x}"));
}
