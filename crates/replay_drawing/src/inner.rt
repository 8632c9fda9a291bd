// What is drawn, and what a digest is, is stated in specs/ and proved.
ghost use Rattle.std.specs.Prelude.{◌≡◌, length};
ghost use Rattle.paper.specs.Refusals.{code_of};
ghost use Rattle.replay_drawing.specs.Draws.{next_of, component_of, Draws, BasisDrawn, id_of};
ghost use Rattle.replay_drawing.specs.Digests.{taken_of, digest_of, halves};

use paper::{Geometry, Refusal};
use recorded::inner::{high, low};

// A run: its geometry, the rounds of its bases, and what its vectors and targets are drawn with.
#[derive(Clone, Copy)]
pub struct Case {
    pub geometry: Geometry,
    pub rounds: usize,
    pub grain: u16,
    pub scale: f32,
    pub aim: f32,
}

// ---- drawing

// One step of the generator: the draw is the new place.
pub fn next_draw(seed: u32) -> u32
    ensures { result ≡ next_of seed }
{
    (48271 * u64::from(seed) % 2147483647) as u32
}

// The component that a draw stands for: one of 2·grain + 1 numbers around 0, times the scale.
fn component(draw: u32, grain: u16, scale: f32) -> f32
    ensures { result ≡ component_of draw grain scale }
{
    let m = draw % (2 * u32::from(grain) + 1);
    (std::num::nearest_u32_to_f32(m) - std::num::nearest_u32_to_f32(u32::from(grain))) * scale
}

// Draws a component for each place.
#[tactic(auto, using(crate::proofs::Turns::draws_turn, crate::proofs::Turns::draws_end, crate::proofs::Turns::place_turn, crate::proofs::Turns::place_end))]
pub fn draw(out: &mut [f32], seed: &mut u32, grain: u16, scale: f32)
    ensures { Draws (length out.old) seed.old grain scale out.new seed.new }
{
    for x in out.iter_mut() {
        *seed = next_draw(*seed);
        *x = component(*seed, grain, scale);
    }
}

// Draws a vector of d components, or of as many as there is room for.
pub fn draw_vector(v: &mut [f32], d: usize, seed: &mut u32, grain: u16, scale: f32) {
    let len = d.min(v.len());
    draw(&mut v[..len], seed, grain, scale);
}

// The id that a draw stands for.
#[tactic(auto, unfolding(crate::specs::Draws::id_of))]
pub fn id_of(draw: u32, cap: usize) -> usize
    ensures { result ≡ id_of draw cap }
{
    if cap == 0 { 0 } else { draw as usize % cap }
}

// Draws one basis and writes it, orthonormalised, to `out`. The scale is 1/64 for every basis.
fn draw_basis(
    out: &mut [f32],
    basis: &mut [f32],
    d: usize,
    rounds: usize,
    seed: &mut u32,
    grain: u16,
) -> Result<(), Refusal>
    ensures { BasisDrawn (length basis.old) d rounds seed.old grain out.old out.new (code_of result) seed.new }
{
    draw(basis, seed, grain, 0.015625);
    ortho::orthonormalize(basis, out, d, rounds)
}

// Draws all bases, one after the other; `basis` is as long as one of them.
pub fn draw_bases(
    bases: &mut [f32],
    basis: &mut [f32],
    case: Case,
    seed: &mut u32,
) -> Result<(), Refusal> {
    let size = basis.len();
    let mut rest = bases;
    for _ in 0..case.geometry.n {
        let Some((out, after)) = rest.split_at_mut_checked(size) else {
            return Err(Refusal::WrongLength);
        };
        draw_basis(out, basis, case.geometry.d, case.rounds, seed, case.grain)?;
        rest = after;
    }
    Ok(())
}

// ---- digests

// A digest with one number more.
fn taken(h: u32, x: u32) -> u32
    ensures { result ≡ taken_of h x }
{
    ((48271 * u64::from(h) + u64::from(x)) % 2147483647) as u32
}

// The digest of words: of each the low half, then the high half.
#[tactic(auto, using(crate::proofs::Turns::words_turn, crate::proofs::Turns::words_end))]
pub fn digest_words(words: &[u64]) -> u32
    ensures { result ≡ digest_of 1 (halves words.now) }
{
    let mut h = 1;
    for w in words {
        h = taken(taken(h, low(*w)), high(*w));
    }
    h
}

// The digest of bytes.
#[tactic(auto, using(crate::proofs::Turns::bytes_turn, crate::proofs::Turns::bytes_end))]
pub fn digest_bytes(bytes: &[u8]) -> u32
    ensures { result ≡ digest_of 1 bytes.now }
{
    let mut h = 1;
    for b in bytes {
        h = taken(h, u32::from(*b));
    }
    h
}
