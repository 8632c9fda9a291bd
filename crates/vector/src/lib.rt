// Vectors: the dot product, the distance and normalising (vector.rs and spaces/simple.rs).
// Every float operation is rounded once, and the operations come in index order.
#![tactic(auto)]

ghost use Rattle.std.specs.Prelude.{◌≡◌, eqb, length};
ghost use Rattle.paper.specs.Choice.{refuse};
ghost use Rattle.paper.specs.Refusals.{code_of, Answers};
ghost use Rattle.sqrt.specs.RootOf.{root};
ghost use Rattle.vector.specs.Fold.{zero32, dot_of, squares_of};
ghost use Rattle.vector.specs.Finite.{is_finite, all_finite};
ghost use Rattle.vector.specs.Norm.{norm_number, normalized, divided_by, all_finite_by, normal};
ghost use Rattle.vector.specs.Laws.{Laws};

use paper::Refusal;

pub mod inner;

/// The dot product: the products added in index order, from +0.0. Refuses 2 where the lengths differ (the Rust cuts to the shorter).
pub fn dot_product(vec: &[f32], other: &[f32]) -> Result<f32, Refusal>
    ensures { Answers result (refuse 2 (eqb (length vec.now) (length other.now)) 0) (dot_of vec.now other.now) zero32 }
{
    if vec.len() != other.len() {
        return Err(Refusal::WrongLength);
    }
    Ok(inner::dot_of(vec, other))
}

/// The distance: the root of the squared differences, added in index order, from +0.0. Refuses 2 where the lengths differ.
pub fn distance(vec: &[f32], other: &[f32]) -> Result<f32, Refusal>
    ensures { Answers result (refuse 2 (eqb (length vec.now) (length other.now)) 0) (root (squares_of vec.now other.now)) zero32 }
{
    if vec.len() != other.len() {
        return Err(Refusal::WrongLength);
    }
    Ok(sqrt::sqrt(inner::squares_of(vec, other)))
}

/// Whether x is a number: no infinity and no NaN.
pub fn is_finite(x: f32) -> bool
    ensures { result ≡ is_finite x }
{
    x.is_finite()
}

/// Whether each component is finite.
pub fn all_finite(vec: &[f32]) -> bool
    ensures { result ≡ all_finite vec.now }
{
    vec.iter().all(|x| is_finite(*x))
}

// Whether each component divided by the norm is finite.
fn quotients_finite(vec: &[f32], norm: f32) -> bool
    ensures { result ≡ all_finite_by norm vec.now }
{
    vec.iter().all(|x| is_finite(*x / norm))
}

// Divides each component by the norm.
fn divide_all(vec: &mut [f32], norm: f32)
    ensures { vec.new ≡ divided_by norm vec.old }
{
    for x in vec.iter_mut() {
        *x = *x / norm;
    }
}

/// Divides each component by the norm, the root of the vector's dot product with itself. Refuses 5 for a component that is not finite, then 6 for a norm that is
/// zero or not finite or a quotient that is not finite. A refusal leaves the vector as it was: the quotients are tried before the first is written.
#[tactic(auto, unfolding(crate::specs::Norm::norm_number, crate::specs::Norm::normalized, crate::specs::Norm::norm_of))]
pub fn normalize(vec: &mut [f32]) -> Result<(), Refusal>
    ensures { normal (code_of result) vec.new ≡ normal (norm_number vec.old) (normalized vec.old) }
{
    if !all_finite(vec) {
        return Err(Refusal::NotFinite);
    }
    let norm = sqrt::sqrt(inner::dot_of(vec, vec));
    if !is_finite(norm) || norm == 0.0 || !quotients_finite(vec, norm) {
        return Err(Refusal::NoNorm);
    }
    divide_all(vec, norm);
    Ok(())
}

// The laws of this crate, claimed: specs/Laws.antt says each of them.
pub fn laws()
    ensures { Laws }
{}
