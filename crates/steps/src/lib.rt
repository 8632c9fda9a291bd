// One record of the search program: what it does to the program's memory, and what it prints (01, "The search program").
#![tactic(auto)]

ghost use Rattle.std.specs.Prelude.{◌≡◌};
ghost use Rattle.steps.specs.Steps.{start_of};
ghost use Rattle.steps.specs.Laws.{Laws};

use records::Session;

pub mod inner;

// All of the program's state in one value. The arrays have room for the largest geometry that the program takes; a smaller one uses their front.
// (Fixed arrays: nothing is allocated.)
#[derive(Clone, Copy)]
pub struct Store {
    pub session: Session,
    pub bases: [f32; 256],
    pub faces: [u64; 256],
    pub marks: [u64; 4],
    pub vectors: [u8; 8192],
}

// Where a run stands after a record, and the place behind what the record printed.
#[derive(Clone, Copy)]
pub struct After {
    pub session: Session,
    pub at: usize,
}

// Before the first record: no geometry, and all zeros.
pub fn start() -> Store
    ensures { result ≡ start_of }
{
    let session = Session {
        stage: 0,
        d: 0,
        n: 0,
        cap: 0,
        mode: 0,
    };
    Store {
        session,
        bases: [0.0f32; 256],
        faces: [0u64; 256],
        marks: [0u64; 4],
        vectors: [0u8; 8192],
    }
}

// The laws of this crate, claimed: specs/Laws.antt says each of them.
pub fn laws()
    ensures { Laws }
{}
