// Faces and slots of finite projections, for the index. A face set's place is a slot, a number from 0 to 2d - 1: the faces 1 to d have the slots
// 0 to d - 1, the faces -1 to -d the slots d to 2d - 1.
ghost use Rattle.std.specs.Prelude.{◌≡◌, true, ◌++◌, ◌+◌, ◌*◌, ◌<◌, ◌≤◌, length, drop};
ghost use Rattle.faces.specs.Best.{beats, best_of};
ghost use Rattle.faces.specs.Slots.{face_for, slot_for, face_of, slot_of, picked_of, faces_of, after_of, HasFace};

// Whether y goes before x: greater in absolute value, or as great, and positive where x is not.
fn goes_before(y: f32, x: f32) -> bool
    ensures { result ≡ beats y x }
{
    let a = x.abs();
    let b = y.abs();
    a < b || (a == b && (y > 0.0 && !(x > 0.0)))
}

// The first index whose entry none goes before.
fn best_index(projection: &[f32]) -> usize
    requires { HasFace projection.now }
    ensures { (result < length projection.now) × (result ≡ best_of projection.now) }
{
    let mut best = 0;
    for i in 1..projection.len() {
        if goes_before(projection[i], projection[best]) {
            best = i;
        }
    }
    best
}

// The face of an index.
fn face_of(b: usize, up: bool) -> i32
    requires { b < 1024 }
    ensures { result ≡ face_for up b }
{
    let n = (b + 1) as i32;
    if up { n } else { -n }
}

// The slot of an index.
fn slot_of(b: usize, up: bool, d: usize) -> usize
    requires { (b < d) × (d ≤ 1024) }
    ensures { (result ≡ slot_for d up b) × (result < 2 * d) }
{
    if up { b } else { d + b }
}

/// The face of a projection.
pub fn face(projection: &[f32]) -> i32
    requires { HasFace projection.now }
    ensures { result ≡ face_of projection.now }
{
    let b = best_index(projection);
    face_of(b, projection[b] > 0.0)
}

/// The slot of a projection.
pub fn slot(work: &[f32]) -> usize
    requires { HasFace work.now }
    ensures { (result ≡ slot_of work.now) × (result < 2 * length work.now) }
{
    let b = best_index(work);
    slot_of(b, work[b] > 0.0, work.len())
}

/// The slot of a projection, whose best entry becomes +0.0.
pub fn pick(work: &mut [f32]) -> usize
    requires { HasFace work.old }
    ensures { (result ≡ slot_of work.old) × (result < 2 * length work.old) × (work.new ≡ picked_of work.old) }
{
    let b = best_index(work);
    let s = slot_of(b, work[b] > 0.0, work.len());
    work[b] = 0.0;
    s
}

/// Picks n faces, one after the other, into the first n places of `out`; each picked entry becomes +0.0.
pub fn pick_faces(projection: &mut [f32], n: usize, out: &mut [i32])
    requires { HasFace projection.old × (n ≤ length out.old) }
    ensures { (projection.new ≡ after_of n projection.old) × (out.new ≡ faces_of n projection.old ++ drop n out.old) }
{
    for k in 0..n {
        let b = best_index(projection);
        out[k] = face_of(b, projection[b] > 0.0);
        projection[b] = 0.0;
    }
}
