// Sums over two slices of one length, for the crates above.
ghost use Rattle.std.specs.Prelude.{◌≡◌, length};
ghost use Rattle.vector.specs.Fold.{dot_of, squares_of};

// The dot product.
#[tactic(auto, using(crate::proofs::Vectors::fold2_step, crate::proofs::Vectors::fold2_end), unfolding(crate::specs::Fold::dot_of))]
pub fn dot_of(vec: &[f32], other: &[f32]) -> f32
    requires { length vec.now ≡ length other.now }
    ensures { result ≡ dot_of vec.now other.now }
{
    let mut sum: f32 = 0.0;
    for i in 0..vec.len() {
        sum = sum + vec[i] * other[i];
    }
    sum
}

// The sum of the squared differences.
#[tactic(auto, using(crate::proofs::Vectors::fold2_step, crate::proofs::Vectors::fold2_end), unfolding(crate::specs::Fold::squares_of))]
pub fn squares_of(vec: &[f32], other: &[f32]) -> f32
    requires { length vec.now ≡ length other.now }
    ensures { result ≡ squares_of vec.now other.now }
{
    let mut sum: f32 = 0.0;
    for i in 0..vec.len() {
        let gap = vec[i] - other[i];
        sum = sum + gap * gap;
    }
    sum
}
