// The projection of a vector on the d vectors of a basis, for the index. Eight or four vectors of the basis are taken side by side, four components
// a turn, so that the machine adds several sums at once; each sum keeps its own order, so no bit differs from one dot product after the other.
ghost use Rattle.std.specs.Prelude.{◌≡◌, ◌++◌, ◌+◌, ◌*◌, ◌<◌, ◌≤◌, length, take, drop};
ghost use Rattle.basis.specs.Project.{projected, rows_from, Square};
ghost use Rattle.basis.specs.Four.{column_of, dot_four, fold_four, set_four};

// Not one function for N rows over `[f32; N]` (tried: 5 to 30 in a hundred slower at up to 32 dimensions, level above), so four and eight have their own.

// The sums of four rows.
#[derive(Clone, Copy, Default)]
pub struct Four {
    pub a: f32,
    pub b: f32,
    pub c: f32,
    pub e: f32,
}

// The sums of eight rows.
#[derive(Clone, Copy)]
pub struct Eight {
    pub lo: Four,
    pub hi: Four,
}

// One column of the four rows from place `at` on: each sum takes the product of x with its row's component.
fn column(t: Four, basis: &[f32], at: usize, d: usize, x: f32) -> Four
    requires { at + d + d + d < length basis.now }
    ensures { result ≡ column_of t x basis.now at d }
{
    let b = at + d;
    let c = b + d;
    let e = c + d;
    Four {
        a: t.a + x * basis[at],
        b: t.b + x * basis[b],
        c: t.c + x * basis[c],
        e: t.e + x * basis[e],
    }
}

// Four columns, from column i on.
fn block(t: Four, basis: &[f32], at: usize, target: &[f32], i: usize) -> Four
    requires { (i + 4 ≤ length target.now) × (at + 4 * length target.now ≤ length basis.now) }
    ensures { fold_four t (drop i target.now) basis.now (at + i) (length target.now) ≡ fold_four result (drop (i + 4) target.now) basis.now (at + (i + 4)) (length target.now) }
{
    let d = target.len();
    let t1 = column(t, basis, at + i, d, target[i]);
    let t2 = column(t1, basis, at + (i + 1), d, target[i + 1]);
    let t3 = column(t2, basis, at + (i + 2), d, target[i + 2]);
    column(t3, basis, at + (i + 3), d, target[i + 3])
}

// The dot products with the four rows from place `at` on.
fn dots_of_four(basis: &[f32], at: usize, target: &[f32]) -> Four
    requires { at + 4 * length target.now ≤ length basis.now }
    ensures { result ≡ dot_four target.now basis.now at }
{
    let d = target.len();
    let mut t = Four::default();
    // A stride whose end the next loop takes up, so a `while`.
    let mut i = 0;
    while 4 <= d - i {
        t = block(t, basis, at, target, i);
        i += 4;
    }
    for j in i..d {
        t = column(t, basis, at + j, d, target[j]);
    }
    t
}

// The dot products with the eight rows from place `at` on.
fn dots_of_eight(basis: &[f32], at: usize, target: &[f32]) -> Eight
    requires { at + 8 * length target.now ≤ length basis.now }
    ensures { (result.lo ≡ dot_four target.now basis.now at) × (result.hi ≡ dot_four target.now basis.now (at + 4 * length target.now)) }
{
    let d = target.len();
    let up = at + 4 * d;
    let mut t = Four::default();
    let mut u = Four::default();
    // A stride whose end the next loop takes up, so a `while`.
    let mut i = 0;
    while 4 <= d - i {
        t = block(t, basis, at, target, i);
        u = block(u, basis, up, target, i);
        i += 4;
    }
    for j in i..d {
        t = column(t, basis, at + j, d, target[j]);
        u = column(u, basis, up + j, d, target[j]);
    }
    Eight { lo: t, hi: u }
}

// Four numbers written from place r on.
fn put_four(work: &mut [f32], r: usize, q: Four)
    requires { r + 4 ≤ length work.old }
    ensures { work.new ≡ set_four work.old r q }
{
    work[r] = q.a;
    work[r + 1] = q.b;
    work[r + 2] = q.c;
    work[r + 3] = q.e;
}

// The rows from the first on, eight at a time, as long as there are eight. Answers the first row that is left.
fn rows_by_eight(basis: &[f32], target: &[f32], work: &mut [f32]) -> usize
    requires { Square (length basis.now) (length target.now) (length work.old) }
    ensures { (result ≤ length target.now) × (take result work.new ++ rows_from basis.now target.now result ≡ projected basis.now target.now) }
{
    let d = target.len();
    // A stride whose end the caller takes up, so a `while`.
    let mut r = 0;
    while 8 <= d - r {
        let Eight { lo, hi } = dots_of_eight(basis, r * d, target);
        put_four(work, r, lo);
        put_four(work, r + 4, hi);
        r += 8;
    }
    r
}

// The same, four rows at a time, from row `from` on: what stood before that row is kept.
fn rows_by_four(basis: &[f32], target: &[f32], work: &mut [f32], from: usize) -> usize
    requires { Square (length basis.now) (length target.now) (length work.old) × (from ≤ length target.now) }
    ensures { (result ≤ length target.now) × (take result work.new ++ rows_from basis.now target.now result ≡ take from work.old ++ rows_from basis.now target.now from) }
{
    let d = target.len();
    // A stride whose end the caller takes up, so a `while`.
    let mut r = from;
    while 4 <= d - r {
        let q = dots_of_four(basis, r * d, target);
        put_four(work, r, q);
        r += 4;
    }
    r
}

// The projection: entry r is the dot product of the target with row r.
pub fn project(basis: &[f32], target: &[f32], work: &mut [f32])
    requires { Square (length basis.now) (length target.now) (length work.old) }
    ensures { work.new ≡ projected basis.now target.now }
{
    let d = target.len();
    let eights = rows_by_eight(basis, target, work);
    let fours = rows_by_four(basis, target, work, eights);
    for r in fours..d {
        let a = r * d;
        work[r] = vector::inner::dot_of(target, &basis[a..a + d]);
    }
}
