// A whole run of the search program: records out of the bytes that were read, in whatever pieces (01, "The search program").
#![tactic(auto)]

ghost use Rattle.std.specs.Prelude.{◌≡◌, replicate};
ghost use Rattle.lines.specs.Lines.{Put};
ghost use Rattle.steps.specs.Steps.{held};
ghost use Rattle.session.specs.Runs.{end_text, fed, feed_of, is_stop, is_read};
ghost use Rattle.session.specs.Laws.{Laws};

use lines::Told;
use paper::Refusal;
use records::Session;
use steps::Store;

pub mod inner;

// What a program does next, when it has written what feed has put: it feeds the rest, where out was full; it reads more; or it stops.
#[derive(Clone, Copy, Debug, PartialEq, Eq)]
pub enum Next {
    Feed,
    Read,
    Stop,
}

// How far a run has come: how much was taken from the input and put into out, and what comes next.
#[derive(Clone, Copy)]
pub struct Fed {
    pub session: Session,
    pub used: usize,
    pub put: usize,
    pub next: Next,
}

// The same with all of the program's state.
#[derive(Clone, Copy)]
pub struct Ran {
    pub store: Store,
    pub used: usize,
    pub put: usize,
    pub next: Next,
}

// What the end of the input prints: the first len bytes of text. (A fixed array with its length: nothing is allocated.)
#[derive(Clone, Copy)]
pub struct Last {
    pub text: [u8; 64],
    pub len: usize,
}

// Takes the records at the front of the input, one after another, and prints what they come to into out. It ends at a bad length, which it
// prints and stops the run for; where the rest of the input is no whole record, which it leaves; and where out has less room than the longest
// answer of one record needs, 5,184 bytes. It refuses nothing by itself, and changes out only where it has put something.
pub fn feed(input: &[u8], mut store: Store, out: &mut [u8]) -> Ran
    ensures { fed (held result.store) result.used result.put (is_stop result.next) (is_read result.next) out.new ≡ feed_of input.now (held store) out.old }
{
    let fed = inner::feed(
        input,
        store.session,
        &mut store.bases,
        &mut store.faces,
        &mut store.marks,
        &mut store.vectors,
        out,
    );
    store.session = fed.session;
    Ran {
        store,
        used: fed.used,
        put: fed.put,
        next: fed.next,
    }
}

// What is printed where the input ends: nothing between records, and refused 15 for what is left of a record.
pub fn finish(rest: &[u8]) -> Last
    ensures { Put (replicate 64 0) result.text 0 result.len (end_text rest.now) }
{
    let mut text = [0u8; 64];
    if rest.is_empty() {
        return Last { text, len: 0 };
    }
    let len = lines::inner::put_told(&mut text, 0, Told::Refused(Refusal::BadRecord.into()));
    Last { text, len }
}

// The laws of this crate, claimed: specs/Laws.antt says each of them.
pub fn laws()
    ensures { Laws }
{}
