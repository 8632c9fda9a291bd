// quantization.rs: bf16 on bits, and vectors as stored bytes. The Rust's two types of quantization are the store mode: 0 keeps
// the four bytes of each component (NoQuantization), 1 its bf16 in two (BF16Quantization).
#![tactic(auto)]

ghost use Rattle.std.specs.Prelude.{◌≡◌};
ghost use Rattle.quantization.specs.Bf16.{lowered, widened};
ghost use Rattle.quantization.specs.Copies.{marshalled, marshal_of, unmarshalled, unmarshal_of};
ghost use Rattle.quantization.specs.Laws.{Laws};
ghost use Rattle.paper.specs.Refusals.{code_of};

use paper::Refusal;

pub mod inner;

// The bf16 of a binary32, both as bits: the nearest, and of two as near the even one; of a NaN its upper half and bit 0040. (half's
// from_f32.)
#[tactic(auto, using(crate::proofs::Halves::lowering))]
pub fn lower(bits: u32) -> u16
    ensures { result ≡ lowered bits }
{
    let high = bits / 0x1_0000;
    let low = bits % 0x1_0000;
    // NaN: above the infinity, the sign aside
    if 0x7F80_0000 < bits % 0x8000_0000 {
        return (high | 0x40) as u16;
    }
    if 0x8000 < low {
        return (high + 1) as u16;
    }
    if low == 0x8000 {
        return (high + high % 2) as u16;
    }
    high as u16
}

// The binary32 of a bf16, both as bits: 16 zeros appended. (half's to_f32.)
#[tactic(auto, unfolding(crate::specs::Bf16::widened))]
pub fn widen(h: u16) -> u32
    ensures { result ≡ widened h }
{
    u32::from(h) * 0x1_0000
}

// Copies the components of v into the array, lowered on the way as the mode says, and keeps the bytes beyond them. Refuses
// an unknown mode (WrongGeometry), then an array that is shorter than the components need (WrongLength); the array is then unchanged.
#[tactic(auto, using(crate::proofs::Copies::marshalling))]
pub fn marshal(mode: usize, v: &[f32], array: &mut [u8]) -> Result<(), Refusal>
    ensures { marshalled (code_of result) array.new ≡ marshal_of mode v.now array.old }
{
    if !paper::mode_ok(mode) {
        return Err(Refusal::WrongGeometry);
    }
    let size = paper::component_size(mode);
    // by a quotient, since v.len() * size may be too large for a usize
    if array.len() / size < v.len() {
        return Err(Refusal::WrongLength);
    }
    for (i, x) in v.iter().enumerate() {
        inner::put_component(array, i * size, *x, mode);
    }
    Ok(())
}

// Reads every component of the array into out, widened as the mode says, and keeps the components of out beyond them. Refuses
// an unknown mode (WrongGeometry), then an array that isn't made of whole components, or that out has no room for (WrongLength); out is
// then unchanged.
#[tactic(auto, using(crate::proofs::Copies::unmarshalling))]
pub fn unmarshal(mode: usize, array: &[u8], out: &mut [f32]) -> Result<(), Refusal>
    ensures { unmarshalled (code_of result) out.new ≡ unmarshal_of mode array.now out.old }
{
    if !paper::mode_ok(mode) {
        return Err(Refusal::WrongGeometry);
    }
    let size = paper::component_size(mode);
    if array.len() % size != 0 {
        return Err(Refusal::WrongLength);
    }
    let n = array.len() / size;
    if out.len() < n {
        return Err(Refusal::WrongLength);
    }
    for i in 0..n {
        out[i] = inner::component(array, i * size, mode);
    }
    Ok(())
}

// The laws of this crate, claimed: specs/Laws.antt says each of them.
pub fn laws()
    ensures { Laws }
{}
