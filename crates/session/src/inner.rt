// A part of a run over lent memory, whose lengths the caller sees to; and the buffer that the input is read into.
ghost use Rattle.std.specs.Prelude.{◌≡◌, ◌+◌, ◌-◌, ◌≤◌, length, take, drop, IfOk, IfSome};
ghost use Rattle.steps.specs.Memory.{Memory, memory_of};
ghost use Rattle.steps.specs.Steps.{state_of};
ghost use Rattle.session.specs.Runs.{frame_of, fed, feed_of, is_stop, is_read};

use super::{Fed, Next};
use lines::Told;
use paper::Refusal;
use records::Session;

// The length of the record at the front, and none where what stands there is shorter than its length says, or too short to hold one: it may be cut, or still to
// come.
// A length of 2 to 512 is good, and others are refused with 15.
#[tactic(auto, unfolding(crate::specs::Runs::frame_of))]
fn front(s: &[u8]) -> Result<Option<usize>, Refusal>
    ensures told { result ≡ frame_of s.now }
    ensures whole { IfOk result (λ o. IfSome o (λ n. (4 + n ≤ length s.now) × (2 ≤ n))) }
{
    if s.len() < 4 {
        return Ok(None);
    }
    let n = records::inner::u32_at(s, 0) as usize;
    if n < 2 || 512 < n {
        return Err(Refusal::BadRecord);
    }
    if s.len() - 4 < n {
        return Ok(None);
    }
    Ok(Some(n))
}

// Takes the records at the front of the input, as long as they are whole and out has room for the longest answer.
pub fn feed(
    input: &[u8],
    start: Session,
    bases: &mut [f32],
    faces: &mut [u64],
    marks: &mut [u64],
    vectors: &mut [u8],
    out: &mut [u8],
) -> Fed
    requires { Memory (length bases.old) (length faces.old) (length marks.old) (length vectors.old) }
    ensures { fed (state_of result.session (memory_of bases.new faces.new marks.new vectors.new)) result.used result.put (is_stop result.next) (is_read result.next) out.new
        ≡ feed_of input.now (state_of start (memory_of bases.old faces.old marks.old vectors.old)) out.old }
{
    let mut g = start;
    let mut i = 0;
    let mut p = 0;
    // No `for`: how many records there are shows only as their lengths are read, and they stop where out is full.
    while 5184 <= out.len() - p {
        let n = match front(&input[i..]) {
            Ok(Some(n)) => n,
            Ok(None) => {
                return Fed {
                    session: g,
                    used: i,
                    put: p,
                    next: Next::Read,
                };
            }
            Err(refusal) => {
                let q = lines::inner::put_told(out, p, Told::Refused(refusal.into()));
                return Fed {
                    session: g,
                    used: i,
                    put: q,
                    next: Next::Stop,
                };
            }
        };
        let from = i + 4;
        let to = from + n;
        let a = steps::inner::step(&input[from..to], g, bases, faces, marks, vectors, out, p);
        g = a.session;
        p = a.at;
        i = to;
    }
    Fed {
        session: g,
        used: i,
        put: p,
        next: Next::Feed,
    }
}

// Moves what stands from a place on to the front.
pub fn keep(buf: &mut [u8], from: usize, end: usize)
    requires { (from ≤ end) × (end ≤ length buf.old) }
    ensures { take (end - from) buf.new ≡ take (end - from) (drop from buf.old) }
{
    buf.copy_within(from..end, 0);
}
