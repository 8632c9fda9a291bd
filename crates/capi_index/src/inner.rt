// Writing a search's answer into the lent arrays.
ghost use Rattle.std.specs.Prelude.{◌≡◌, ◌∷◌, [], length, IfOk};
ghost use Rattle.capi_sets.specs.Lists.{outs, listed, Fits};
ghost use Rattle.capi_index.specs.Searches.{put_nearest};

use capi_sets::inner::put_list;
use paper::Refusal;
use vector_store::Nearest;

// Three numbers into three places.
pub fn tell_three(counts: &mut [u32], a: u32, b: u32, c: u32)
    requires { length counts.old ≡ 3 }
    ensures { counts.new ≡ a ∷ b ∷ c ∷ [] }
{
    counts[0] = a;
    counts[1] = b;
    counts[2] = c;
}

// What a search found into the arrays, with its length, its count and what it dropped told; a refused search changes nothing. The answer is the refusal's number, as C has it.
pub fn put_nearest(
    nearest: Result<Nearest, Refusal>,
    ids: &mut [u32],
    scores: &mut [f32],
    counts: &mut [u32],
) -> u32
    requires fits { IfOk nearest (λ a. Fits a.set (length ids.old) (length scores.old)) }
    requires three { length counts.old ≡ 3 }
    ensures { listed result (outs ids.new scores.new counts.new) ≡ put_nearest nearest (outs ids.old scores.old counts.old) }
{
    match nearest {
        Ok(Nearest { set, dropped }) => {
            put_list(&set, ids, scores);
            tell_three(counts, set.len as u32, set.checked, dropped);
            0
        }
        Err(refusal) => refusal.into(),
    }
}
