// Gathering, for the search: each call says what it needs of the lengths.
ghost use Rattle.std.specs.Prelude.{◌≡◌, length};
ghost use Rattle.faces.specs.Slots.{slots};
ghost use Rattle.candidates.specs.Gathering.{joined, query_of, gathered, SpillArgs, BasisArgs, BasisIs, GatherArgs, GatherIs};

use paper::Refusal;

// Joins the face sets of `picks` picks of the projection to the set. Each pick leaves +0.0 in the picked entry's place.
fn spill_into(faces: &[u64], work: &mut [f32], set: &mut [u64], picks: usize)
    requires { SpillArgs (length faces.now) (length set.old) work.old }
    ensures { set.new ≡ joined (length set.old) faces.now set.old (slots picks work.old) }
{
    let w = set.len();
    for i in 0..picks {
        let slot = faces::inner::pick(work);
        let a = slot * w;
        bitmaps::inner::or(set, &faces[a..a + w]);
    }
}

// One basis: its union is merged into the layers, and the answer is how many ids fell off the last. Refuses 7, and leaves anything in the memories, if an
// entry of the projection is not finite.
fn gather_basis(
    basis: &[f32],
    faces: &[u64],
    target: &[f32],
    work: &mut [f32],
    layers: &mut [u64],
    set: &mut [u64],
    n: usize,
    picks: usize,
) -> Result<u32, Refusal>
    requires { BasisArgs n (length basis.now) (length faces.now) (length target.now) (length work.old) (length layers.old) (length set.old) }
    ensures { BasisIs n (length set.old) picks basis.now faces.now target.now layers.old (gathered result) layers.new }
{
    basis::inner::project(basis, target, work);
    if !vector::all_finite(work) {
        return Err(Refusal::NoProjection);
    }
    set.fill(0);
    spill_into(faces, work, set, picks);
    let w = set.len();
    counting_bitmap::inner::merge(layers, n, w, set);
    Ok(bitmaps::inner::count(set))
}

// All n bases, from emptied layers: 7, or the layers as the unions make them, and how many ids fell off the last. What is left in work and set is for the
// caller to clear.
pub fn gather(
    bases: &[f32],
    faces: &[u64],
    target: &[f32],
    work: &mut [f32],
    layers: &mut [u64],
    set: &mut [u64],
    n: usize,
    picks: usize,
) -> Result<u32, Refusal>
    requires { GatherArgs n (length bases.now) (length faces.now) (length target.now) (length work.old) (length layers.old) (length set.old) }
    ensures { GatherIs n (query_of bases.now faces.now target.now (length set.old) picks) (gathered result) layers.new }
{
    let square = target.len() * target.len();
    let block = 2 * target.len() * set.len();
    let mut total: u32 = 0;
    layers.fill(0);
    for b in 0..n {
        let p = b * square;
        let f = b * block;
        total += gather_basis(
            &bases[p..p + square],
            &faces[f..f + block],
            target,
            work,
            layers,
            set,
            n,
            picks,
        )?;
    }
    Ok(total)
}
