// Indexes really made in two ways, with the promise that their memories end equal.
ghost use Rattle.std.specs.Prelude.{◌≡◌, [], ◌∷◌, length};
ghost use Rattle.paper.specs.Refusals.{code_of};
ghost use Rattle.index_memory.specs.Memory.{ix_of};
ghost use Rattle.order_free.specs.Order.{addition, filled, FillArgs, PairArgs};

use paper::{Geometry, Refusal};

// Makes the index empty and adds one vector.
pub fn fill_one(
    bases: &[f32],
    faces: &mut [u64],
    marks: &mut [u64],
    vectors: &mut [u8],
    work: &mut [f32],
    v: &[f32],
    g: Geometry,
    i: usize,
)
    requires { FillArgs g (length faces.old) (length marks.old) (length vectors.old) (length work.old) }
    ensures { ix_of faces.new marks.new vectors.new ≡ filled g bases.now (addition i v.now ∷ []) }
{
    let _ = index_memory::new_vector_store(faces, marks, vectors, g);
    let _ = adding::add_vector(bases, faces, marks, vectors, work, v, g, i);
}

// Makes the index empty and adds two vectors, v before u.
pub fn fill_two(
    bases: &[f32],
    faces: &mut [u64],
    marks: &mut [u64],
    vectors: &mut [u8],
    work: &mut [f32],
    v: &[f32],
    u: &[f32],
    g: Geometry,
    i: usize,
    j: usize,
)
    requires { FillArgs g (length faces.old) (length marks.old) (length vectors.old) (length work.old) }
    ensures { ix_of faces.new marks.new vectors.new ≡ filled g bases.now (addition i v.now ∷ addition j u.now ∷ []) }
{
    fill_one(bases, faces, marks, vectors, work, v, g, i);
    let _ = adding::add_vector(bases, faces, marks, vectors, work, u, g, j);
}

// Two empty indexes, and two vectors added to each, in two orders: the memories end equal.
pub fn two_orders(
    bases: &[f32],
    faces: &mut [u64],
    marks: &mut [u64],
    vectors: &mut [u8],
    faces2: &mut [u64],
    marks2: &mut [u64],
    vectors2: &mut [u8],
    work: &mut [f32],
    v: &[f32],
    u: &[f32],
    g: Geometry,
    i: usize,
    j: usize,
)
    requires { PairArgs g i j (length faces.old) (length marks.old) (length vectors.old) (length faces2.old) (length marks2.old) (length vectors2.old) (length work.old) }
    ensures { ix_of faces.new marks.new vectors.new ≡ ix_of faces2.new marks2.new vectors2.new }
{
    fill_two(bases, faces, marks, vectors, work, v, u, g, i, j);
    fill_two(bases, faces2, marks2, vectors2, work, u, v, g, j, i);
}

// Two empty indexes, one vector added to each, and the second merged into the first; then the second made empty again, and both vectors added to it,
// the second's first. The merge is accepted, and the memories end equal.
pub fn two_deals(
    bases: &[f32],
    faces: &mut [u64],
    marks: &mut [u64],
    vectors: &mut [u8],
    faces2: &mut [u64],
    marks2: &mut [u64],
    vectors2: &mut [u8],
    work: &mut [f32],
    v: &[f32],
    u: &[f32],
    g: Geometry,
    i: usize,
    j: usize,
) -> Result<(), Refusal>
    requires { PairArgs g i j (length faces.old) (length marks.old) (length vectors.old) (length faces2.old) (length marks2.old) (length vectors2.old) (length work.old) }
    ensures { (code_of result ≡ 0) × (ix_of faces.new marks.new vectors.new ≡ ix_of faces2.new marks2.new vectors2.new) }
{
    fill_one(bases, faces, marks, vectors, work, v, g, i);
    fill_one(bases, faces2, marks2, vectors2, work, u, g, j);
    let merged = merging::merge(faces, marks, vectors, faces2, marks2, vectors2, g);
    fill_two(bases, faces2, marks2, vectors2, work, u, v, g, j, i);
    merged
}
