// For the crates above: the tests of lengths, each of which asks only the bounds that keep its products small.
ghost use Rattle.std.specs.Prelude.{◌≡◌, ◌≤◌};
ghost use Rattle.index_memory.specs.Memory.{store_ok, own_ok, bases_ok};

use paper::Geometry;

// Whether marks and stored vectors have their lengths.
#[tactic(auto, unfolding(crate::specs::Memory::store_ok))]
pub fn store_lengths_ok(g: Geometry, marks: usize, vectors: usize) -> bool
    requires { (g.d ≤ 1024) × (g.cap ≤ 65536) }
    ensures { result ≡ store_ok g.d g.cap g.mode marks vectors }
{
    marks == g.cap / 64 && vectors == paper::inner::vector_bytes(g)
}

// Whether face sets, marks and stored vectors have their lengths.
#[tactic(auto, unfolding(crate::specs::Memory::own_ok))]
pub fn own_lengths_ok(g: Geometry, faces: usize, marks: usize, vectors: usize) -> bool
    requires { (g.d ≤ 1024) × (g.n ≤ 32) × (g.cap ≤ 65536) }
    ensures { result ≡ own_ok g.d g.n g.cap g.mode faces marks vectors }
{
    faces == paper::inner::face_words(g) && store_lengths_ok(g, marks, vectors)
}

// Whether the bases have their length.
#[tactic(auto, unfolding(crate::specs::Memory::bases_ok))]
pub fn bases_length_ok(g: Geometry, bases: usize) -> bool
    requires { (g.d ≤ 1024) × (g.n ≤ 32) }
    ensures { result ≡ bases_ok g.d g.n bases }
{
    bases == paper::inner::bases_len(g)
}
