// The lines that the search program prints (01, "The search program").
#![tactic(auto)]

ghost use Rattle.lines.specs.Laws.{Laws};

pub mod inner;

// What one record comes to, but for a search's list: `refused N`, `geometry d n C mode`, `basis b`, `added id`, `found L checked c`. (The kinds of a line, a refusal's among them, by any
// number: no Result, and `put_told` takes each.)
#[derive(Clone, Copy, Debug, PartialEq, Eq)]
pub enum Told {
    Refused(u32),
    Geometry(u32, u32, u32, u32),
    Basis(u32),
    Added(u32),
    Found(u32, u32),
}

// The laws of this crate, claimed: specs/Laws.antt says each of them.
pub fn laws()
    ensures { Laws }
{}
