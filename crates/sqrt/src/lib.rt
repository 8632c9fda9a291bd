// The square root of a binary32, on its 32 bits. (The Rust calls f32's sqrt; here it is computed.)
#![tactic(auto)]

ghost use Rattle.std.specs.Prelude.{◌≡◌, ◌+◌, ◌*◌, ◌^◌, ◌≤◌, ◌<◌};
ghost use Rattle.std.specs.Float.{binary32};
ghost use Rattle.std.specs.Float.Ieee.{to_bits, of_bits};
ghost use Rattle.sqrt.specs.Root.{Near, Sqrt};
ghost use Rattle.sqrt.specs.RootOf.{root};
ghost use Rattle.sqrt.specs.Laws.{Laws};

// The pattern of +infinity.
const INFINITY: u32 = 0x7F80_0000;
// The pattern that every NaN is answered by, as the library's f32_to_bits_with_nan does.
const NAN: u32 = 0x7FC0_0000;
// The sign's bit alone, the pattern of -0.
const SIGN: u32 = 0x8000_0000;
// The bit above the 23 digits of a significand: the leading digit of a normal pattern.
const LEADING: u32 = 0x0080_0000;

// A guess at the whole root of an a from 2^48 on: a cubic that follows the root of u from 1 to 4, and two of Newton's steps.
// Nothing is asked of it but its size: it only says where the search starts, and a bad guess makes it longer.
fn guess(a: u64) -> u64
    requires { a < 2 ^ 50 }
    ensures { (0 < result) × (result < 33554432) }
{
    let x = a as f64;
    // x / 2^48
    let u = x * 0.0000000000000035527136788005009;
    let y = (0.45015557286410973
        + u * (0.6371288193468073 + u * (u * 0.007555691922606166 - 0.09258526521320799)))
        * 16777216.0;
    let y1 = (y + x / y) * 0.5;
    let y2 = (y1 + x / y1) * 0.5;
    if y2.is_nan() {
        return 1;
    }
    // the whole part of a float from 2^24 to 2^25: its 24 highest digits and the leading one
    y2.to_bits() / 268435456 % 16777216 + 16777216
}

// A candidate that is not too large: c if it isn't, else 0.
fn not_above(a: u64, c: u64) -> u64
    requires { c < 33554432 }
    ensures { (result * result ≤ a) × (result ≤ c) }
{
    if c * c <= a { c } else { 0 }
}

// A candidate that is too large: c if it is, else 2^25.
fn above(a: u64, c: u64) -> u64
    requires { (a < 2 ^ 50) × (c ≤ 33554432) }
    ensures { (a < result * result) × (c ≤ result) × (result ≤ 33554432) }
{
    if a < c * c { c } else { 33554432 }
}

// The largest r with r * r <= a, by halving the span between a candidate that is not too large and one that is. The span
// starts around the guess, so that a turn or two are enough. (A loop: a span that halves is no range, and the rules name this form.)
fn whole_root(a: u64) -> u64
    requires { a < 2 ^ 50 }
    ensures { (result * result ≤ a) × (a < (result + 1) * (result + 1)) }
{
    let g = guess(a);
    let mut lo = not_above(a, g - 1);
    let mut hi = above(a, g + 1);
    // a span that halves, so no `for`
    let root = loop {
        if hi - lo <= 1 {
            break lo;
        }
        let mid = (lo + hi) / 2;
        if mid * mid <= a {
            lo = mid;
        } else {
            hi = mid;
        }
    };
    root
}

// The pattern nearest to the root of m * 2^(h + 24) units of 2^-149, for an m of 24 digits. The significand is scaled so
// that its whole root has 25 digits; the last of them rounds. (A root is never halfway between two patterns.)
fn rounded_root(m: u64, h: u32) -> u32
    requires { (8388608 ≤ m) × (m < 16777216) × (102 ≤ h) × (h ≤ 378) }
    ensures { (result < 2139095040) × Near (m * 2 ^ (h + 24)) result }
{
    let scaled = if h % 2 == 0 {
        m * 67108864
    } else {
        m * 33554432
    };
    let root = whole_root(scaled);
    let half = (root + 1) / 2;
    // the leading digit of the rounded root adds 1 to the field
    (h + 1) / 2 * LEADING + half as u32
}

// The bits of the nearest binary32 to the root of the binary32 with these bits. A zero and +infinity give themselves, a NaN
// and any other negative the NaN 7FC00000.
pub fn sqrt_bits(bits: u32) -> u32
    ensures { Sqrt bits result }
{
    let field = (bits / LEADING % 256) as u8;
    let digits = bits % LEADING;
    match field {
        // a zero or subnormal
        0 => {
            if digits == 0 {
                return bits;
            }
            if SIGN <= bits {
                return NAN;
            }
            let shift = digits.leading_zeros() - 8;
            rounded_root(u64::from(digits << shift), 125 - shift)
        }
        // normal
        1..=254 => {
            if SIGN <= bits {
                return NAN;
            }
            rounded_root(u64::from(digits + LEADING), u32::from(field) + 124)
        }
        // an infinity or NaN
        255 => {
            if bits == INFINITY {
                return bits;
            }
            NAN
        }
    }
}

// The bits of a float; of a NaN those of the one NaN that the logic knows, 7FC00000.
pub fn bits_of(x: f32) -> u32
    ensures { result ≡ to_bits binary32 x }
{
    std::num::f32_to_bits_with_nan(x)
}

// The float of a bit pattern; of a NaN's pattern a NaN, whatever its payload.
pub fn of_bits(n: u32) -> f32
    ensures { result ≡ of_bits binary32 n }
{
    std::num::f32_from_bits_with_nan(n)
}

// The square root of a float, on its bits.
pub fn sqrt(x: f32) -> f32
    ensures { result ≡ root x }
{
    of_bits(sqrt_bits(bits_of(x)))
}

// The laws of this crate, claimed: specs/Laws.antt says each of them.
pub fn laws()
    ensures { Laws }
{}
