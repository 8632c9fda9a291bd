// The work on layers, for the crates above: n layers of w words each, one after the other, and a set of w words.
ghost use Rattle.std.specs.Prelude.{◌≡◌, ◌++◌, ◌+◌, ◌*◌, ◌-◌, ◌≤◌, length};
ghost use Rattle.counting_bitmap.specs.Layers.{Carried, layer, merged, fallen, counts_of, empty};
ghost use Rattle.counting_bitmap.specs.TopLayer.{top_of, part_of};
ghost use Rattle.counting_bitmap.specs.Answers.{layers_ok};

// Whether the capacity is good and there are 1 to 32 layers.
#[tactic(auto, unfolding(crate::specs::Answers::layers_ok))]
pub fn layers_ok(cap: usize, n: usize) -> bool
    ensures { result ≡ layers_ok cap n }
{
    paper::capacity_ok(cap) && 1 <= n && n <= 32
}

// One layer and the incoming set, in one pass: the layer becomes the union, and what they shared stays in the set to be carried on. The answer
// is whether anything is.
fn carry(layer: &mut [u64], cur: &mut [u64]) -> bool
    requires { length layer.old ≡ length cur.old }
    ensures { Carried layer.old cur.old result layer.new cur.new }
{
    let mut any = 0;
    for i in 0..layer.len() {
        let l = layer[i];
        let c = cur[i];
        layer[i] = l | c;
        cur[i] = l & c;
        any |= l & c;
    }
    any != 0
}

// Merges a set into the layers, and leaves in it what fell off the last. It ends early where nothing is carried on: the layers above stay as
// they are. (By index: `chunks_exact_mut` asks for a width above 0, which this call does not.)
pub fn merge(layers: &mut [u64], n: usize, w: usize, cur: &mut [u64])
    requires { (length layers.old ≡ n * w) × (length cur.old ≡ w) }
    ensures { (layers.new ≡ merged n w layers.old cur.old) × (cur.new ≡ fallen n w layers.old cur.old) }
{
    for i in 0..n {
        let at = i * w;
        if !carry(&mut layers[at..at + w], cur) {
            return;
        }
    }
}

// Layer i.
fn layer(layers: &[u64], w: usize, i: usize) -> &[u64]
    requires { (i + 1) * w ≤ length layers.now }
    ensures { result.now ≡ layer w layers.now i }
{
    let at = i * w;
    &layers[at..at + w]
}

// The number of ids of each layer, in the first n places.
pub fn cardinalities(layers: &[u64], n: usize, w: usize) -> [u32; 32]
    requires { (length layers.now ≡ n * w) × (n ≤ 32) × (w ≤ 1024) }
    ensures { result ≡ counts_of n w layers.now ++ empty (32 - n) }
{
    let mut counts = [0u32; 32];
    for i in 0..n {
        counts[i] = bitmaps::inner::count(layer(layers, w, i));
    }
    counts
}

// The number of the highest layer with at least search_k ids.
pub fn top_layer(layers: &[u64], n: usize, w: usize, search_k: usize) -> Option<usize>
    requires { (length layers.now ≡ n * w) × (w ≤ 1024) }
    ensures { result ≡ top_of n w layers.now search_k }
{
    for i in (0..n).rev() {
        if search_k <= bitmaps::inner::count(layer(layers, w, i)) as usize {
            return Some(i);
        }
    }
    None
}

// The layer itself, and an empty part where there is none.
pub fn top_part(layers: &[u64], n: usize, w: usize, search_k: usize) -> &[u64]
    requires { (length layers.now ≡ n * w) × (w ≤ 1024) }
    ensures { result.now ≡ part_of w layers.now (top_of n w layers.now search_k) }
{
    match top_layer(layers, n, w, search_k) {
        Some(i) => layer(layers, w, i),
        None => &[],
    }
}
