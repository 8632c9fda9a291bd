// The search program's reading and writing: records from standard input, lines to standard output, a buffer at a time.
// What the records come to is all in the crate session. No contract can say which bytes a read or a write moves, so what the functions
// here promise is what they do to the buffers. What a turn of the loop does of a run is proved (turn, and the laws turn_goes and turn_ends); that a
// program of such turns prints the same however its input comes in is session's law (whole, plays, any_cut).
#![tactic(auto)]

ghost use Rattle.std.specs.Prelude.{◌≡◌, ◌+◌, ◌-◌, ◌≤◌, length, take, drop, IfSome};
ghost use Rattle.steps.specs.Steps.{held};
ghost use Rattle.session.specs.Runs.{fed, feed_of, is_stop, is_read};
ghost use Rattle.console.specs.Turns.{between, Turned};
ghost use Rattle.console.specs.Laws.{Laws};

use session::{Next, Ran};
use std::io::{Read, Stdin};
use steps::Store;

// The number of standard output.
const STANDARD_OUTPUT: i32 = 1;

// Where a run stands between two turns: the program's state, and the part of the buffer that was read and is not used yet.
#[derive(Clone, Copy)]
pub struct Place {
    pub store: Store,
    pub from: usize,
    pub end: usize,
}

// Writes the first n bytes; false if they could not all be written, which is what the library's call answers.
fn print(out: &[u8], n: usize) -> bool
    requires { n ≤ length out.now }
{
    io::write_all(STANDARD_OUTPUT, &out[0..n])
}

// Reads behind what is there already, which stays: where the input that stands in the buffer ends then, and none where there was no more.
// A read that fails counts as the end of the input.
fn read_behind(mut stdin: Stdin, input: &mut [u8], at: usize) -> Option<usize>
    requires { at ≤ length input.old }
    ensures ends { IfSome result (λ end. (at ≤ end) × (end ≤ length input.old)) }
    ensures stays { take at input.new ≡ take at input.old }
{
    match stdin.read(&mut input[at..]) {
        Ok(n) if n > 0 => Some(at + n),
        _ => None,
    }
}

// Brings what is left to the front, and reads behind it.
fn refill(stdin: Stdin, input: &mut [u8], from: usize, end: usize) -> Option<usize>
    requires { (from ≤ end) × (end ≤ length input.old) }
    ensures ends { IfSome result (λ more. (end - from ≤ more) × (more ≤ length input.old)) }
    ensures stays { take (end - from) input.new ≡ take (end - from) (drop from input.old) }
{
    session::inner::keep(input, from, end);
    read_behind(stdin, input, end - from)
}

// The end of the input.
fn end_run(rest: &[u8]) {
    let last = session::finish(rest);
    let n = last.len;
    if n <= 64 {
        print(&last.text, n);
    }
}

// Feeds the input that stands in the buffer from a place on, up to its end.
fn feed_part(input: &[u8], from: usize, end: usize, store: Store, out: &mut [u8]) -> Ran
    requires { (from ≤ end) × (end ≤ length input.now) }
    ensures { (from + result.used ≤ end) × (result.put ≤ length out.old)
        × (fed (held result.store) result.used result.put (is_stop result.next) (is_read result.next) out.new ≡ feed_of (take (end - from) (drop from input.now)) (held store) out.old) }
{
    session::feed(&input[from..end], store, out)
}

// One turn of the loop: feeds what stands in the buffer, writes what that has put, and reads more where it is asked for. That the bytes written
// are those that feed has put, and that the end of the input prints its text, is seen here and in no contract: none can speak of what a write moves.
fn turn(stdin: Stdin, input: &mut [u8], place: Place, out: &mut [u8]) -> Option<Place>
    requires { (place.from ≤ place.end) × (place.end ≤ length input.old) }
    ensures { Turned (between place.from place.end input.old) (held place.store) out.old result input.new }
{
    let end = place.end;
    let ran = feed_part(input, place.from, end, place.store, out);
    let from = place.from + ran.used;
    let store = ran.store;
    if !print(out, ran.put) || ran.next == Next::Stop {
        return None;
    }
    if ran.next == Next::Feed {
        return Some(Place { store, from, end });
    }
    let Some(more) = refill(stdin, input, from, end) else {
        end_run(&input[..end - from]);
        return None;
    };
    Some(Place {
        store,
        from: 0,
        end: more,
    })
}

// Reads all of standard input and prints what a run over it prints; it ends early where the run stops or where nothing more can be written.
// What feed leaves of the input when it waits is less than a record (session's law part_short), so that there is always room to read more.
// Every turn reads at least a byte, or empties a full buffer (its law moves), or ends the run: the count of turns, by which the loop is
// seen to end, is never used up.
pub fn run(rt: HostRuntime) {
    let stdin = rt.stdin();
    let mut input = [0u8; 65536];
    let mut out = [0u8; 65536];
    let mut place = Place {
        store: steps::start(),
        from: 0,
        end: 0,
    };
    for _ in 0..u64::MAX {
        let Some(next) = turn(stdin, &mut input, place, &mut out) else {
            return;
        };
        place = next;
    }
}

// The laws of this crate, claimed: specs/Laws.antt says each of them.
pub fn laws()
    ensures { Laws }
{}
