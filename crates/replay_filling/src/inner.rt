// What is drawn is put to the calls. Of these functions it is proved that they are safe and end. None can fail: a write that fails is passed over.
use paper::{Geometry, Refusal};
use recorded::inner::{passed_over, show_refusal, show_refused};
use replay_drawing::inner::{Case, draw_bases, draw_vector, id_of, next_draw};

// ---- bases

// Draws the bases, and ends the line.
pub fn start(rt: &impl Print, case: Case, seed: &mut u32, bases: &mut [f32]) {
    let mut basis = [0.0f32; 4096];
    let part = bases.len().checked_div(case.geometry.n).unwrap_or(0);
    let len = part.min(basis.len());
    let basis = &mut basis[..len];
    show_refusal(rt, draw_bases(bases, basis, case, seed));
}

// ---- additions

// Draws an id and a vector, and adds them; nothing is added where the id has the parity that is left out.
fn add_one(
    case: Case,
    seed: &mut u32,
    left_out: Option<usize>,
    bases: &[f32],
    faces: &mut [u64],
    marks: &mut [u64],
    vectors: &mut [u8],
) -> Result<(), Refusal> {
    let g = case.geometry;
    *seed = next_draw(*seed);
    let id = id_of(*seed, g.cap);
    let mut v = [0.0f32; 64];
    draw_vector(&mut v, g.d, seed, case.grain, case.scale);
    if left_out == Some(id % 2) {
        return Ok(());
    }
    let mut work = [0.0f32; 64];
    let len = g.d.min(64);
    adding::add_vector(
        bases,
        faces,
        marks,
        vectors,
        &mut work[..len],
        &v[..len],
        g,
        id,
    )
}

// Draws m additions, and makes all but those of the parity that is left out. Shows refusals.
pub fn add_all(
    rt: &impl Print,
    case: Case,
    m: u64,
    seed: &mut u32,
    left_out: Option<usize>,
    bases: &[f32],
    faces: &mut [u64],
    marks: &mut [u64],
    vectors: &mut [u8],
) {
    for _ in 0..m {
        let answer = add_one(case, seed, left_out, bases, faces, marks, vectors);
        show_refused(rt, answer);
    }
}

// ---- merging

// A second index merged into the first, and once more, which is refused where it has an id. Shows refusals, and ends the lines.
pub fn join(
    rt: &impl Print,
    g: Geometry,
    faces: &mut [u64],
    marks: &mut [u64],
    vectors: &mut [u8],
    faces2: &[u64],
    marks2: &[u64],
    vectors2: &[u8],
) {
    let once = merging::merge(faces, marks, vectors, faces2, marks2, vectors2, g);
    show_refusal(rt, once);
    passed_over(print!(rt; "merge"));
    let again = merging::merge(faces, marks, vectors, faces2, marks2, vectors2, g);
    show_refusal(rt, again);
}
