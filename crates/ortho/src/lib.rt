// orthonormalize (a helper of vector_store.rs).
// A basis is d vectors of d components in one slice: component c of vector r stands at r * d + c. Row functions take the place r * d.
#![tactic(auto)]

ghost use Rattle.std.specs.Prelude.{◌≡◌, ◌+◌, ◌*◌, ◌-◌, ◌<◌, ◌≤◌, length};
ghost use Rattle.paper.specs.Refusals.{code_of};
ghost use Rattle.vector.specs.Fold.{dot_of};
ghost use Rattle.ortho.specs.Ortho.{row, reduced, norm_row, pair_of, rows_of, round_of, rounds_of, told, written, orthonormalized};
ghost use Rattle.ortho.specs.Laws.{Laws};

use paper::Refusal;

// Normalises the row at a.
fn normalize_row(out: &mut [f32], a: usize, d: usize) -> Result<(), Refusal>
    requires { a + d ≤ length out.old }
    ensures { norm_row a d out.old ≡ told result out.new }
{
    vector::normalize(&mut out[a..a + d])
}

// The dot product of the rows at a and b.
fn dot_rows(out: &[f32], a: usize, b: usize, d: usize) -> f32
    requires { (a + d ≤ length out.now) × (b + d ≤ length out.now) }
    ensures { result ≡ dot_of (row a d out.now) (row b d out.now) }
{
    vector::inner::dot_of(&out[a..a + d], &out[b..b + d])
}

// Subtracts dot times the row at a from the row at b, which comes after it.
fn reduce_row(out: &mut [f32], a: usize, b: usize, d: usize, dot: f32)
    requires { (a + d ≤ b) × (b + d ≤ length out.old) }
    ensures { out.new ≡ reduced a b d dot out.old }
{
    for k in 0..d {
        out[b + k] = out[b + k] - dot * out[a + k];
    }
}

// Makes the row at b orthogonal to the row at a, which comes before it, and normalises it.
fn pair(out: &mut [f32], a: usize, b: usize, d: usize) -> Result<(), Refusal>
    requires { (a + d ≤ b) × (b + d ≤ length out.old) }
    ensures { pair_of a b d out.old ≡ told result out.new }
{
    let dot = dot_rows(out, a, b, d);
    reduce_row(out, a, b, d, dot);
    normalize_row(out, b, d)
}

// Each row after row i, against row i.
fn rows(out: &mut [f32], d: usize, i: usize) -> Result<(), Refusal>
    requires { (length out.old ≡ d * d) × (i < d) }
    ensures { rows_of d i (d - (i + 1)) (i + 1) out.old ≡ told result out.new }
{
    let a = i * d;
    for j in i + 1..d {
        pair(out, a, j * d, d)?;
    }
    Ok(())
}

// One round over all rows.
fn round(out: &mut [f32], d: usize) -> Result<(), Refusal>
    requires { length out.old ≡ d * d }
    ensures { round_of d d 0 out.old ≡ told result out.new }
{
    for i in 0..d {
        normalize_row(out, i * d, d)?;
        rows(out, d, i)?;
    }
    Ok(())
}

// The rounds, one after the other.
fn all_rounds(out: &mut [f32], d: usize, n: usize) -> Result<(), Refusal>
    requires { length out.old ≡ d * d }
    ensures { rounds_of d n out.old ≡ told result out.new }
{
    for _ in 0..n {
        round(out, d)?;
    }
    Ok(())
}

/// Reads one basis and writes it, orthonormalised in this many rounds, to `out`; no round copies it. Refuses 1 for d outside 1 to 1,024 or more than 8
/// rounds, 2 for a length other than d * d, 5 for a component that is not finite: these leave `out` as it was. Refuses 6 where a vector can't be
/// normalised on the way: that leaves `out` all +0.0.
#[tactic(auto, unfolding(crate::specs::Ortho::orthonormalized))]
pub fn orthonormalize(
    basis: &[f32],
    out: &mut [f32],
    d: usize,
    rounds: usize,
) -> Result<(), Refusal>
    ensures { written (code_of result) out.new ≡ orthonormalized d rounds basis.now out.old }
{
    if d < 1 || 1024 < d || 8 < rounds {
        return Err(Refusal::WrongGeometry);
    }
    let n = d * d;
    if basis.len() != n || out.len() != n {
        return Err(Refusal::WrongLength);
    }
    if !vector::all_finite(basis) {
        return Err(Refusal::NotFinite);
    }
    paper::inner::copy_over(out, basis);
    if all_rounds(out, d, rounds).is_err() {
        out.fill(0.0);
        return Err(Refusal::NoNorm);
    }
    Ok(())
}

// The laws of this crate, claimed: specs/Laws.antt says each of them.
pub fn laws()
    ensures { Laws }
{}
