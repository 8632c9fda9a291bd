// What a record of the search program asks for, or what refuses it (01, "The search program").
#![tactic(auto)]

ghost use Rattle.std.specs.Prelude.{◌≡◌, IfOk};
ghost use Rattle.paper.specs.Geometry.{geo};
ghost use Rattle.records.specs.Requests.{Limits, Fits, within_limits, geometry_fits, geometry_of, basis_of, addition_of, search_of, request_of};
ghost use Rattle.records.specs.Laws.{Laws};

use paper::{Geometry, Refusal};

pub mod inner;

// Where a run stands: its geometry, and what may come next. Stage 0: no geometry yet; 1: bases may be given; 2: an addition was accepted. A number, and no enum: `asked`
// and the runs above take any number there.
#[derive(Clone, Copy, Debug, PartialEq, Eq)]
pub struct Session {
    pub stage: u32,
    pub d: u32,
    pub n: u32,
    pub cap: u32,
    pub mode: u32,
}

impl Session {
    /// The geometry, as the calls of an index take it.
    pub fn geometry(self) -> Geometry
        ensures { result ≡ geo self.d self.n self.cap self.mode }
    {
        Geometry {
            d: self.d as usize,
            n: self.n as usize,
            cap: self.cap as usize,
            mode: self.mode as usize,
        }
    }
}

// What a record asks for. Geometry: d, n, C, mode. Basis: its number. Add: the id. Search: k, search_k, spill. The floats stay in the record.
#[derive(Clone, Copy, Debug, PartialEq, Eq)]
pub enum Request {
    Geometry(u32, u32, u32, u32),
    Basis(u32),
    Add(u32),
    Search(u32, u32, u32),
}

// Whether the numbers lie within the program's limits, so that its memory has room. (A test and no type: `asked` takes any session.)
#[tactic(auto, unfolding(crate::specs::Requests::within_limits))]
fn within_limits(g: Session) -> bool
    ensures { result ≡ within_limits g }
{
    g.d <= 8 && g.n <= 4 && g.cap <= 256 && g.mode <= 1
}

// Whether a geometry is good, and one that the program takes.
#[tactic(auto, unfolding(crate::specs::Requests::geometry_fits))]
fn geometry_fits(g: Geometry) -> bool
    ensures { result ≡ geometry_fits g.d g.n g.cap g.mode }
{
    g.is_ok() && g.d <= 8 && g.n <= 4 && g.cap <= 256
}

// Kind 1: once, of 11 bytes with its kind, and a geometry that the program takes.
#[tactic(auto, unfolding(crate::specs::Requests::geometry_of))]
fn geometry_of(s: &[u8], g: Session) -> Result<Request, Refusal>
    ensures { result ≡ geometry_of s.now g }
{
    if g.stage != 0 {
        return Err(Refusal::WrongGeometry);
    }
    if s.len() != 11 {
        return Err(Refusal::WrongLength);
    }
    let asked = Session {
        stage: 1,
        d: inner::u16_at(s, 2),
        n: inner::u16_at(s, 4),
        cap: inner::u32_at(s, 6),
        mode: u32::from(s[10]),
    };
    if !geometry_fits(asked.geometry()) {
        return Err(Refusal::WrongGeometry);
    }
    Ok(Request::Geometry(asked.d, asked.n, asked.cap, asked.mode))
}

// Kind 2: after the geometry and before the first accepted addition, with d * d floats, and a number below n.
#[tactic(auto, unfolding(crate::specs::Requests::basis_of))]
fn basis_of(s: &[u8], g: Session) -> Result<Request, Refusal>
    requires { Limits g }
    ensures { result ≡ basis_of s.now g }
{
    if g.stage != 1 {
        return Err(Refusal::WrongGeometry);
    }
    let d = g.d as usize;
    if s.len() != 4 + 4 * (d * d) {
        return Err(Refusal::WrongLength);
    }
    let b = inner::u16_at(s, 2);
    if g.n <= b {
        return Err(Refusal::WrongGeometry);
    }
    Ok(Request::Basis(b))
}

// Kind 3: after the geometry, with d floats.
#[tactic(auto, unfolding(crate::specs::Requests::addition_of))]
fn addition_of(s: &[u8], g: Session) -> Result<Request, Refusal>
    requires { Limits g }
    ensures { result ≡ addition_of s.now g }
{
    if g.stage == 0 {
        return Err(Refusal::WrongGeometry);
    }
    let d = g.d as usize;
    if s.len() != 6 + 4 * d {
        return Err(Refusal::WrongLength);
    }
    Ok(Request::Add(inner::u32_at(s, 2)))
}

// Kind 5: after the geometry, with d floats.
#[tactic(auto, unfolding(crate::specs::Requests::search_of))]
fn search_of(s: &[u8], g: Session) -> Result<Request, Refusal>
    requires { Limits g }
    ensures { result ≡ search_of s.now g }
{
    if g.stage == 0 {
        return Err(Refusal::WrongGeometry);
    }
    let d = g.d as usize;
    if s.len() != 10 + 4 * d {
        return Err(Refusal::WrongLength);
    }
    Ok(Request::Search(
        inner::u16_at(s, 2),
        inner::u32_at(s, 4),
        inner::u16_at(s, 8),
    ))
}

// What a record, its kind and its body, asks for. It refuses 15 for a kind that it does not know, 1 for a record that may
// not come now, 2 for its length, 1 for a field, in this order; and 1 before all of them for a session beyond the program's limits, which no run
// comes to (law run_within of steps).
#[tactic(auto, using(crate::proofs::Requests::limits), unfolding(crate::specs::Requests::request_of))]
pub fn asked(s: &[u8], g: Session) -> Result<Request, Refusal>
    ensures told { result ≡ request_of s.now g }
    ensures fits { IfOk result (λ q. Fits q s.now g) }
{
    if !within_limits(g) {
        return Err(Refusal::WrongGeometry);
    }
    if s.len() < 2 {
        return Err(Refusal::BadRecord);
    }
    // The kinds are the file's numbers, and read in this place alone.
    match inner::u16_at(s, 0) {
        1 => geometry_of(s, g),
        2 => basis_of(s, g),
        3 => addition_of(s, g),
        5 => search_of(s, g),
        _ => Err(Refusal::BadRecord),
    }
}

// The laws of this crate, claimed: specs/Laws.antt says each of them.
pub fn laws()
    ensures { Laws }
{}
