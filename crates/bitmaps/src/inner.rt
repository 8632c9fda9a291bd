// The loops over words, for the crates above: the sets have one length, and an id is below it.
ghost use Rattle.std.specs.Prelude.{◌≡◌, ℕ, ◌*◌, ◌^◌, ◌<◌, ◌≤◌, length};
ghost use Rattle.bitmaps.specs.Words.{by_word, union, exclusive, without, inserted, size, has, holds, is_empty, empty};
ghost use Rattle.bitmaps.specs.Walk.{NextIs};

// An operation on two sets, word by word: `op` says what `f` gives.
fn by_word<F: Fn(u64, u64) -> u64>(a: &mut [u64], b: &[u64], f: F)
    ghost op: { ℕ → ℕ → ℕ }
    requires same { length a.old ≡ length b.now }
    requires callable { F.IsAlwaysCallable f }
    requires gives { (x y r : ℕ) → x < 2 ^ 64 → y < 2 ^ 64 → F.post f x y r → r ≡ op x y }
    ensures { a.new ≡ by_word op a.old b.now }
{
    for i in 0..a.len() {
        a[i] = f(a[i], b[i]);
    }
}

// The ids of either.
pub fn or(a: &mut [u64], b: &[u64])
    requires { length a.old ≡ length b.now }
    ensures { a.new ≡ union a.old b.now }
{
    by_word(a, b, |x, y| x | y);
}

// The ids of just one of the two.
pub fn xor(a: &mut [u64], b: &[u64])
    requires { length a.old ≡ length b.now }
    ensures { a.new ≡ exclusive a.old b.now }
{
    by_word(a, b, |x, y| x ^ y);
}

// The ids of the first that are not in the second.
pub fn and_not(a: &mut [u64], b: &[u64])
    requires { length a.old ≡ length b.now }
    ensures { a.new ≡ without a.old b.now }
{
    by_word(a, b, |x, y| x & !y);
}

// The number of ids.
pub fn count(a: &[u64]) -> u32
    requires { length a.now ≤ 1024 }
    ensures { result ≡ size a.now }
{
    let mut n = 0;
    for word in a {
        n += word.count_ones();
    }
    n
}

// Whether there is no id: no word but 0.
pub fn is_empty(a: &[u64]) -> bool
    ensures { result ≡ is_empty a.now }
{
    a.iter().all(|w| *w == 0)
}

// Puts an id into the set.
pub fn add(a: &mut [u64], id: usize)
    requires { id < length a.old * 64 }
    ensures { a.new ≡ inserted a.old id }
{
    a[id / 64] |= 1 << (id % 64);
}

// The digit of an id: 1 where the set has it.
pub fn bit_of(a: &[u64], id: usize) -> u64
    requires { id < length a.now * 64 }
    ensures { result ≡ has a.now id }
{
    (a[id / 64] >> (id % 64)) % 2
}

// Whether the set has an id.
pub fn contains(a: &[u64], id: usize) -> bool
    requires { id < length a.now * 64 }
    ensures { result ≡ holds a.now id }
{
    bit_of(a, id) == 1
}

// The next id at or after a place. A word is looked at as a whole: a word of 0 has no id, and in any other the trailing zeros lead to its lowest.
pub fn next(a: &[u64], from: usize) -> Option<usize>
    requires { length a.now ≤ 1024 }
    ensures { NextIs a.now from result }
{
    let q = from / 64;
    let first = *a.get(q)? >> (from % 64);
    if first != 0 {
        return Some(from + first.trailing_zeros() as usize);
    }
    for i in q + 1..a.len() {
        let x = a[i];
        if x != 0 {
            return Some(i * 64 + x.trailing_zeros() as usize);
        }
    }
    None
}

// Takes every id out.
pub fn clear(a: &mut [u64])
    ensures { a.new ≡ empty (length a.old) }
{
    a.fill(0);
}
