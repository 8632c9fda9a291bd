// The calls behind the refusals: distances straight from the stored bytes, and the ranking of a set of ids.
ghost use Rattle.std.specs.Prelude.{◌≡◌, ◌+◌, ◌*◌, ◌<◌, ◌≤◌, length};
ghost use Rattle.paper.specs.Geometry.{comp_size};
ghost use Rattle.bitmaps.specs.Words.{holds};
ghost use Rattle.sqrt.specs.RootOf.{root};
ghost use Rattle.vector.specs.Fold.{squares_of};
ghost use Rattle.quantization.specs.Stored.{components};
ghost use Rattle.result.specs.Sets.{empty_set, fed_or};
ghost use Rattle.backend_memory.specs.Ranking.{rank_of, nearest_of, RankArgs};

use paper::Refusal;
use result::ResultSet;

// The sign's bit of a pattern: the patterns below it are in the order of their values.
const SIGN: u32 = 0x8000_0000;

// The sum of the squared differences of the target and the vector stored from byte `at` on, read from its bytes without a copy of it.
pub fn squares(vectors: &[u8], target: &[f32], mode: usize, at: usize) -> f32
    requires { at + comp_size mode * length target.now ≤ length vectors.now }
    ensures { result ≡ squares_of target.now (components mode vectors.now at (length target.now)) }
{
    let size = paper::component_size(mode);
    let mut sum: f32 = 0.0;
    let mut p = at;
    for x in target {
        let gap = *x - quantization::inner::component(vectors, p, mode);
        sum = sum + gap * gap;
        p += size;
    }
    sum
}

// The distance of the target from a stored vector, from the sum of the squared differences. (The Rust adds and takes the root in one function; apart,
// ranking can leave out a root that decides nothing.)
pub fn compute_similarity(squares: f32) -> f32
    ensures { result ≡ root squares }
{
    sqrt::sqrt(squares)
}

// Whether the id has its mark.
pub fn vector_exists(marks: &[u64], id: usize) -> bool
    requires { id < length marks.now * 64 }
    ensures { result ≡ holds marks.now id }
{
    bitmaps::inner::contains(marks, id)
}

// Feeds the ids of the set, by rising id, each with its distance from the target. The first fault decides: 9 for an id that has no mark, 10 for a score that is NaN.
pub fn rank(
    ids: &[u64],
    marks: &[u64],
    vectors: &[u8],
    target: &[f32],
    mode: usize,
    k: usize,
) -> Result<ResultSet, Refusal>
    requires { RankArgs mode k (length ids.now) (length marks.now) (length vectors.now) (length target.now) }
    ensures { fed_or (empty_set 0) result ≡ rank_of mode k ids.now marks.now vectors.now target.now }
{
    let slot = paper::component_size(mode) * target.len();
    // the list in its parts, so that no set is moved about
    let mut list = [0u32; 256];
    let mut sims = [0.0f32; 256];
    let mut len = 0;
    let mut checked: u32 = 0;
    let mut at = 0;
    // Most candidates meet a full list with a greater last score: they are only counted. Every sum whose bits are below `bar` has such a root, since a
    // smaller sum has no greater root and the last score never falls; so that root is not taken.
    let mut bar: u32 = 0;
    // No `for`: where the walk goes on follows from what it found.
    while let Some(id) = bitmaps::inner::next(ids, at) {
        if !vector_exists(marks, id) {
            return Err(Refusal::NoMark);
        }
        let sum = squares(vectors, target, mode, id * slot);
        let bits = sqrt::bits_of(sum);
        at = id + 1;
        checked += 1;
        if bits >= bar {
            let similarity = compute_similarity(sum);
            if similarity.is_nan() {
                return Err(Refusal::NanScore);
            }
            if result::inner::closed_to(&sims, len, k, similarity) {
                bar = bits % SIGN;
            } else {
                len = result::inner::insert(&mut list, &mut sims, len, k, id as u32, similarity);
            }
        }
    }
    Ok(ResultSet {
        ids: list,
        sims,
        len,
        k,
        checked,
    })
}

// Feeds every present id: each has its mark, so that 9 never comes.
pub fn find_nearest(
    marks: &[u64],
    vectors: &[u8],
    target: &[f32],
    mode: usize,
    k: usize,
) -> Result<ResultSet, Refusal>
    requires { RankArgs mode k (length marks.now) (length marks.now) (length vectors.now) (length target.now) }
    ensures { fed_or (empty_set 0) result ≡ nearest_of mode k marks.now vectors.now target.now }
{
    rank(marks, marks, vectors, target, mode, k)
}
