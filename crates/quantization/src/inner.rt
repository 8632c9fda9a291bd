// Stored bytes for the crates above, which see to it that the bytes are there: whole numbers and components, little-endian.
ghost use Rattle.std.specs.Prelude.{◌≡◌, ◌+◌, ◌^◌, ◌≤◌, ◌<◌, length};
ghost use Rattle.std.proofs.lemmas.List.Edits.{sets};
ghost use Rattle.paper.specs.Geometry.{comp_size};
ghost use Rattle.quantization.specs.Bytes.{le_bytes, le_word};
ghost use Rattle.quantization.specs.Stored.{encoded, comp_bytes, component_at};

// Writes the `size` lowest bytes of n from `at` on, the lowest first.
#[tactic(auto, using(crate::proofs::Bytes::put_step, crate::proofs::Bytes::put_end))]
pub fn put_le(out: &mut [u8], at: usize, size: usize, n: u64)
    requires { at + size ≤ length out.old }
    ensures { out.new ≡ sets out.old at (le_bytes size n) }
{
    let mut rest = n;
    for j in 0..size {
        out[at + j] = (rest % 256) as u8;
        rest /= 256;
    }
}

// The number of the `size` bytes from `at` on, the lowest first.
#[tactic(auto, using(crate::proofs::Bytes::word_none, crate::proofs::Bytes::pow_some))]
pub fn get_le(s: &[u8], at: usize, size: usize) -> u64
    requires { (at + size ≤ length s.now) × (size ≤ 8) }
    ensures { (result ≡ le_word s.now at size) × (result < 256 ^ size) }
{
    let mut r = 0;
    for j in (0..size).rev() {
        r = r * 256 + u64::from(s[at + j]);
    }
    r
}

// The number that is stored for a float.
#[tactic(auto, using(crate::proofs::Stored::two_modes))]
fn encode(mode: usize, x: f32) -> u64
    ensures { result ≡ encoded mode x }
{
    let bits = sqrt::bits_of(x);
    if mode == 0 {
        u64::from(bits)
    } else {
        u64::from(super::lower(bits))
    }
}

// Stores a component from `at` on.
#[tactic(auto, unfolding(crate::specs::Stored::comp_bytes))]
pub fn put_component(array: &mut [u8], at: usize, x: f32, mode: usize)
    requires { at + comp_size mode ≤ length array.old }
    ensures { array.new ≡ sets array.old at (comp_bytes mode x) }
{
    put_le(array, at, paper::component_size(mode), encode(mode, x));
}

// Four bytes, the lowest first.
#[tactic(auto, using(crate::proofs::Bytes::word_four))]
fn word4(s: &[u8], at: usize) -> u32
    requires { at + 4 ≤ length s.now }
    ensures { result ≡ le_word s.now at 4 }
{
    u32::from_le_bytes([s[at], s[at + 1], s[at + 2], s[at + 3]])
}

// Two bytes, the lowest first.
#[tactic(auto, using(crate::proofs::Bytes::word_two))]
fn word2(s: &[u8], at: usize) -> u16
    requires { at + 2 ≤ length s.now }
    ensures { result ≡ le_word s.now at 2 }
{
    u16::from_le_bytes([s[at], s[at + 1]])
}

// The component that starts at byte `at`.
#[tactic(auto, unfolding(crate::specs::Stored::component_at), using(crate::proofs::Stored::two_modes))]
pub fn component(array: &[u8], at: usize, mode: usize) -> f32
    requires { at + comp_size mode ≤ length array.now }
    ensures { result ≡ component_at mode array.now at }
{
    if mode == 0 {
        return sqrt::of_bits(word4(array, at));
    }
    sqrt::of_bits(super::widen(word2(array, at)))
}
