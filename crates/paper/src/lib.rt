// What every crate of the index shares: the refusal numbers, the geometry and its test, and the length of each lent memory.
#![tactic(auto)]

ghost use Rattle.std.specs.Prelude.{◌≡◌, IfOk};
ghost use Rattle.paper.specs.Geometry.{cap_ok, mode_ok, geo_ok, comp_size, geo, lengths_of, GeoFacts};
ghost use Rattle.paper.specs.Choice.{refuse};
ghost use Rattle.paper.specs.Laws.{Laws};
ghost use Rattle.paper.specs.Refusals.{number_of, code_of};

use std::error::Error;
use std::fmt;

pub mod inner;

/// Why a call is refused. Each has its number, which the calls for C and the search program show; 0 is acceptance.
#[derive(Clone, Copy, Debug, PartialEq, Eq)]
pub enum Refusal {
    /// A geometry or a store mode outside its range, too many rounds, or a record that comes too early or too late, or asks for more than the program has room for.
    WrongGeometry = 1,
    /// A lent memory, or a record's body, of a wrong length.
    WrongLength,
    /// An id that is not below the capacity.
    WrongId,
    /// A list of more than 256 asked for.
    WrongK,
    /// A given vector with a component that is not finite.
    NotFinite,
    /// A norm of zero, or one that is not finite, or a component that is not finite after the step.
    NoNorm,
    /// A projection with an entry that is not finite.
    NoProjection,
    /// No counting layer with as many ids as asked for.
    NoLayer,
    /// An id of the chosen layer that has no present mark.
    NoMark,
    /// A score that is NaN.
    NanScore,
    /// Two indexes to merge that share a present id.
    SharedId,
    /// A result set that can count no further entry.
    FullCount,
    /// A result set that is not well formed.
    BadSet,
    /// A recall asked for at 0.
    NoRecall,
    /// A record with a bad frame or of an unknown kind.
    BadRecord,
}

impl From<Refusal> for u32 {
    ghost from_gives = { λ r n. n ≡ number_of r };

    fn from(refusal: Refusal) -> u32 {
        refusal as u32
    }
}

impl fmt::Display for Refusal {
    ghost use Rattle.std.specs.Prelude.{Some};
    ghost use Rattle.paper.specs.Refusals.{refused_text};

    ghost output = { λ r. Some (refused_text r) };

    fn fmt<W: fmt::Write>(&self, f: &mut fmt::Formatter<W>) -> fmt::Result {
        write!(f, "refused {}", u32::from(*self))
    }
}

impl Error for Refusal {}

/// The number of an answer: 0 where a call was accepted, else the refusal's.
pub fn code<T: Drop>(answer: Result<T, Refusal>) -> u32
    ensures { result ≡ code_of answer }
{
    match answer {
        Ok(_) => 0,
        Err(refusal) => refusal.into(),
    }
}

// How long each lent memory has to be: in floats (bases, floats), in words of 64 bits (faces, marks, layers, set) and in bytes (vectors).
#[derive(Clone, Copy, Debug, Default, PartialEq, Eq)]
pub struct Lengths {
    pub bases: usize,
    pub faces: usize,
    pub marks: usize,
    pub vectors: usize,
    pub floats: usize,
    pub layers: usize,
    pub set: usize,
}

// Whether the capacity is a multiple of 64 from 64 to 65,536.
#[tactic(auto, unfolding(crate::specs::Geometry::cap_ok))]
pub fn capacity_ok(cap: usize) -> bool
    ensures { result ≡ cap_ok cap }
{
    64 <= cap && cap <= 65536 && cap % 64 == 0
}

// Whether the store mode is known.
pub fn mode_ok(mode: usize) -> bool
    ensures { result ≡ mode_ok mode }
{
    mode <= 1
}

// The bytes of one stored component.
pub fn component_size(mode: usize) -> usize
    ensures { result ≡ comp_size mode }
{
    if mode == 0 { 4 } else { 2 }
}

/// What an index is made for: `d` dimensions, `n` bases, the capacity `cap` and the store mode. Any numbers may stand in it; the calls refuse what is out of range.
#[derive(Clone, Copy, Debug, PartialEq, Eq)]
pub struct Geometry {
    pub d: usize,
    pub n: usize,
    pub cap: usize,
    pub mode: usize,
}

impl Geometry {
    /// Whether dimensions, bases, capacity and mode are all in range.
    #[tactic(auto, unfolding(crate::specs::Geometry::geo_ok))]
    pub fn is_ok(self) -> bool
        ensures { result ≡ geo_ok self.d self.n self.cap self.mode }
    {
        1 <= self.d
            && self.d <= 1024
            && 1 <= self.n
            && self.n <= 32
            && capacity_ok(self.cap)
            && mode_ok(self.mode)
    }

    /// Refuses a geometry that is out of range.
    #[tactic(auto, using(crate::proofs::GeometryFacts::geo_facts))]
    pub fn check(self) -> Result<(), Refusal>
        ensures told { code_of result ≡ refuse 1 (geo_ok self.d self.n self.cap self.mode) 0 }
        ensures good { IfOk result (λ _. GeoFacts self.d self.n self.cap self.mode) }
    {
        if !self.is_ok() {
            return Err(Refusal::WrongGeometry);
        }
        Ok(())
    }

    /// The length of each memory that the calls of an index are lent; all 0 for a geometry that they refuse.
    pub fn lengths(self) -> Lengths
        ensures { result ≡ lengths_of self }
    {
        if !self.is_ok() {
            return Lengths::default();
        }
        let words = self.cap / 64;
        Lengths {
            bases: inner::bases_len(self),
            faces: inner::face_words(self),
            marks: words,
            vectors: inner::vector_bytes(self),
            floats: self.d,
            layers: self.n * words,
            set: words,
        }
    }
}

// The laws of this crate, claimed: specs/Laws.antt says each of them.
pub fn laws()
    ensures { Laws }
{}
