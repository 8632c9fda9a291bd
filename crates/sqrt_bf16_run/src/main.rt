// Runs the square root, lowering and widening on patterns whose answers came from the published Rust (README.md), and prints
// each pattern with its answer. Standard input is records of five bytes: 0 for a root, 1 for lowering, 2 for widening; then the
// pattern in four bytes, the lowest first. 65,536 bytes of it are read.
#![tactic(auto)]

use recorded::buffered::read_input;
use recorded::inner::passed_over;
use std::io;

// A line: the pattern and the answer.
fn run(rt: &impl Print, kind: u8, bits: u32) -> io::Result<()> {
    match kind {
        0 => {
            let root = sqrt::sqrt_bits(bits);
            println!(rt; "{bits:08x} {root:08x}")
        }
        1 => {
            let half = quantization::lower(bits);
            println!(rt; "{bits:08x} {half:04x}")
        }
        _ => {
            let half = (bits & 0xffff) as u16;
            let wide = quantization::widen(half);
            println!(rt; "{half:04x} {wide:08x}")
        }
    }
}

// Every whole record, in order.
fn run_all(rt: &impl Print, input: &[u8]) -> io::Result<()> {
    let (records, _) = input.as_chunks::<5>();
    for record in records {
        let [kind, a, b, c, d] = *record;
        run(rt, kind, u32::from_le_bytes([a, b, c, d]))?;
    }
    Ok(())
}

fn main(rt: HostRuntime) {
    let mut buffer = [0u8; 65536];
    // A failed write ends the run, and no more.
    passed_over(run_all(&rt, read_input(&mut buffer)));
}
