// A record over lent memory, for the crate above, which sees to the lengths and to the room in out.
ghost use Rattle.std.specs.Prelude.{◌≡◌, ◌+◌, ◌*◌, ◌≤◌, ◌<◌, length, take, IfOk, MatchResult};
ghost use Rattle.std.proofs.lemmas.List.Edits.{sets};
ghost use Rattle.lines.specs.Lines.{Put};
ghost use Rattle.records.specs.Fields.{floats_at};
ghost use Rattle.records.specs.Requests.{Limits};
ghost use Rattle.steps.specs.Memory.{Parts, Memory, memory_of, added_by, added_of, found_by, found_of};
ghost use Rattle.paper.specs.Refusals.{number_of, code_of};
ghost use Rattle.vector_store.specs.Search.{told_of};
ghost use Rattle.steps.specs.Steps.{listed, state_of, Stepped, Refused};

use super::After;
use lines::Told;
use paper::{Lengths, Refusal};
use records::{Request, Session};
use vector_store::{Nearest, Query};

// How much of each memory the geometry uses. (Not `Geometry::lengths`, which is 0 throughout where a geometry is not good: a session may have no dimensions.)
fn parts_of(g: Session) -> Lengths
    requires { Limits g }
    ensures { Parts g result }
{
    let at = g.geometry();
    let words = at.cap / 64;
    Lengths {
        bases: paper::inner::bases_len(at),
        faces: paper::inner::face_words(at),
        marks: words,
        vectors: paper::inner::vector_bytes(at),
        floats: at.d,
        layers: at.n * words,
        set: words,
    }
}

// The record's basis goes to its place.
fn set_basis(s: &[u8], g: Session, b: u32, bases: &mut [f32])
    requires { Limits g × (b < g.n) × (length s.now ≡ 4 + 4 * (g.d * g.d)) × (length bases.old ≡ 256) }
    ensures { bases.new ≡ sets bases.old (b * (g.d * g.d)) (floats_at (g.d * g.d) s.now 4) }
{
    let d = g.d as usize;
    let a = b as usize * (d * d);
    let e = a + d * d;
    records::inner::floats_at(s, 4, &mut bases[a..e]);
}

// The vector of a record.
fn vector_of(s: &[u8], from: usize, d: usize) -> [f32; 8]
    requires { (d ≤ 8) × (from + 4 * d ≤ length s.now) }
    ensures { (8 ≡ length result) × (take d result ≡ floats_at d s.now from) }
{
    let mut v = [0.0f32; 8];
    records::inner::floats_at(s, from, &mut v[..d]);
    v
}

// A vector is added to the index that stands in the front of the memory.
fn add_front(
    v: &[f32],
    work: &mut [f32],
    g: Session,
    id: u32,
    bases: &[f32],
    faces: &mut [u64],
    marks: &mut [u64],
    vectors: &mut [u8],
) -> Result<(), Refusal>
    requires { Limits g × Memory (length bases.now) (length faces.old) (length marks.old) (length vectors.old) }
    ensures { added_by v.now work.old g id (memory_of bases.now faces.old marks.old vectors.old)
        ≡ (code_of result, memory_of bases.now faces.new marks.new vectors.new) }
{
    let l = parts_of(g);
    adding::add_vector(
        &bases[..l.bases],
        &mut faces[..l.faces],
        &mut marks[..l.marks],
        &mut vectors[..l.vectors],
        work,
        v,
        g.geometry(),
        id as usize,
    )
}

// The record's vector is added.
fn add(
    s: &[u8],
    g: Session,
    id: u32,
    bases: &[f32],
    faces: &mut [u64],
    marks: &mut [u64],
    vectors: &mut [u8],
) -> Result<(), Refusal>
    requires { Limits g × (length s.now ≡ 6 + 4 * g.d) × Memory (length bases.now) (length faces.old) (length marks.old) (length vectors.old) }
    ensures { added_of s.now g id (memory_of bases.now faces.old marks.old vectors.old)
        ≡ (code_of result, memory_of bases.now faces.new marks.new vectors.new) }
{
    let d = g.d as usize;
    let v = vector_of(s, 6, d);
    let mut work = [0.0f32; 8];
    add_front(&v[..d], &mut work[..d], g, id, bases, faces, marks, vectors)
}

// A search of the index that stands in the front of the memory.
fn find_front(
    v: &[f32],
    work: &mut [f32],
    layers: &mut [u64],
    joined: &mut [u64],
    g: Session,
    query: Query,
    bases: &[f32],
    faces: &[u64],
    marks: &[u64],
    vectors: &[u8],
) -> Result<Nearest, Refusal>
    requires { Limits g × Memory (length bases.now) (length faces.now) (length marks.now) (length vectors.now) }
    ensures found { told_of result ≡ found_by v.now work.old layers.old joined.old g query.k query.search_k query.spill (memory_of bases.now faces.now marks.now vectors.now) }
    ensures few { IfOk result (λ f. f.set.len ≤ 256) }
{
    let l = parts_of(g);
    vector_store::find_nearest(
        &bases[..l.bases],
        &faces[..l.faces],
        &marks[..l.marks],
        &vectors[..l.vectors],
        work,
        layers,
        joined,
        v,
        g.geometry(),
        query,
    )
}

// The record's search.
fn find(
    s: &[u8],
    g: Session,
    query: Query,
    bases: &[f32],
    faces: &[u64],
    marks: &[u64],
    vectors: &[u8],
) -> Result<Nearest, Refusal>
    requires { Limits g × (length s.now ≡ 10 + 4 * g.d) × Memory (length bases.now) (length faces.now) (length marks.now) (length vectors.now) }
    ensures found { told_of result ≡ found_of s.now g query.k query.search_k query.spill (memory_of bases.now faces.now marks.now vectors.now) }
    ensures few { IfOk result (λ f. f.set.len ≤ 256) }
{
    let d = g.d as usize;
    let v = vector_of(s, 10, d);
    let mut work = [0.0f32; 8];
    let mut layers = [0u64; 16];
    let mut joined = [0u64; 4];
    let w = g.cap as usize / 64;
    let nl = g.n as usize * w;
    find_front(
        &v[..d],
        &mut work[..d],
        &mut layers[..nl],
        &mut joined[..w],
        g,
        query,
        bases,
        faces,
        marks,
        vectors,
    )
}

// What an accepted search prints: how many it lists and checked, and the list.
fn put_found(found: Nearest, out: &mut [u8], at: usize) -> usize
    requires { (at + 5184 ≤ length out.old) × (found.set.len ≤ 256) }
    ensures { Put out.old out.new at result (listed found.set) }
{
    let set = found.set;
    let p = lines::inner::put_told(out, at, Told::Found(set.len as u32, set.checked));
    lines::inner::put_listing(out, p, &set.ids, &set.sims, set.len)
}

// What a record asks for is done, and printed into out at a place. A refused record changes neither the memory nor out.
fn perform(
    s: &[u8],
    g: Session,
    bases: &mut [f32],
    faces: &mut [u64],
    marks: &mut [u64],
    vectors: &mut [u8],
    out: &mut [u8],
    at: usize,
) -> Result<After, Refusal>
    requires { Memory (length bases.old) (length faces.old) (length marks.old) (length vectors.old) × (at + 5184 ≤ length out.old) }
    ensures { MatchResult result
        (λ a. Stepped s.now (state_of g (memory_of bases.old faces.old marks.old vectors.old))
        (state_of a.session (memory_of bases.new faces.new marks.new vectors.new)) out.old out.new at a.at)
        (λ r. Refused s.now (state_of g (memory_of bases.old faces.old marks.old vectors.old))
        (state_of g (memory_of bases.new faces.new marks.new vectors.new)) out.old out.new (number_of r)) }
{
    match records::asked(s, g)? {
        Request::Geometry(d, n, cap, mode) => Ok(After {
            session: Session {
                stage: 1,
                d,
                n,
                cap,
                mode,
            },
            at: lines::inner::put_told(out, at, Told::Geometry(d, n, cap, mode)),
        }),
        Request::Basis(b) => {
            set_basis(s, g, b, bases);
            Ok(After {
                session: g,
                at: lines::inner::put_told(out, at, Told::Basis(b)),
            })
        }
        Request::Add(id) => {
            add(s, g, id, bases, faces, marks, vectors)?;
            Ok(After {
                session: Session { stage: 2, ..g },
                at: lines::inner::put_told(out, at, Told::Added(id)),
            })
        }
        Request::Search(k, wanted, spill) => {
            let query = Query {
                k: k as usize,
                search_k: wanted as usize,
                spill: spill as usize,
            };
            let found = find(s, g, query, bases, faces, marks, vectors)?;
            Ok(After {
                session: g,
                at: put_found(found, out, at),
            })
        }
    }
}

// One record, its kind and its body: what it asks for is done and printed into out at a place. No refused record changes the memory.
pub fn step(
    s: &[u8],
    g: Session,
    bases: &mut [f32],
    faces: &mut [u64],
    marks: &mut [u64],
    vectors: &mut [u8],
    out: &mut [u8],
    at: usize,
) -> After
    requires { Memory (length bases.old) (length faces.old) (length marks.old) (length vectors.old) × (at + 5184 ≤ length out.old) }
    ensures { Stepped s.now (state_of g (memory_of bases.old faces.old marks.old vectors.old))
        (state_of result.session (memory_of bases.new faces.new marks.new vectors.new)) out.old out.new at result.at }
{
    match perform(s, g, bases, faces, marks, vectors, out, at) {
        Ok(after) => after,
        Err(refusal) => After {
            session: g,
            at: lines::inner::put_told(out, at, Told::Refused(refusal.into())),
        },
    }
}
