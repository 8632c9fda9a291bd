// What the calls share: the test of a projection's length, and writing an answer into its place.
ghost use Rattle.std.specs.Prelude.{◌≡◌, ◌≤◌, length};
ghost use Rattle.capi_vectors.specs.Single.{single, put, laid_over};
ghost use Rattle.capi_vectors.specs.Projections.{dims_ok};

use paper::Refusal;

// One value into its place; a refusal keeps it. The answer is the refusal's number, as C has it.
pub fn put_one<T: Copy>(answer: Result<T, Refusal>, out: &mut [T]) -> u32
    requires { length out.old ≡ 1 }
    ensures { single result out.new ≡ put answer out.old }
{
    match answer {
        Ok(x) => {
            out[0] = x;
            0
        }
        Err(refusal) => refusal.into(),
    }
}

// Whether a projection has 1 to 1,024 entries.
#[tactic(auto, unfolding(crate::specs::Projections::dims_ok))]
pub fn dims_ok(d: usize) -> bool
    ensures { result ≡ dims_ok d }
{
    1 <= d && d <= 1024
}

// The first n of `from` over the first n of `to`.
pub fn copy_front<T: Copy>(from: &[T], n: usize, to: &mut [T])
    requires { (n ≤ length from.now) × (n ≤ length to.old) }
    ensures { to.new ≡ laid_over n from.now to.old }
{
    to[..n].copy_from_slice(&from[..n]);
}
