// Numbers and floats that stand in a record, little-endian (01, "The search program"). Each call asks that the bytes are there.
ghost use Rattle.std.specs.Prelude.{◌≡◌, ◌+◌, ◌*◌, ◌≤◌, ◌<◌, length};
ghost use Rattle.records.specs.Fields.{u16_at, u32_at, floats_at};

// The number of two bytes at a place.
pub fn u16_at(s: &[u8], at: usize) -> u32
    requires { at + 2 ≤ length s.now }
    ensures { (result ≡ u16_at s.now at) × (result < 65536) }
{
    quantization::inner::get_le(s, at, 2) as u32
}

// The number of four bytes at a place.
pub fn u32_at(s: &[u8], at: usize) -> u32
    requires { at + 4 ≤ length s.now }
    ensures { result ≡ u32_at s.now at }
{
    quantization::inner::get_le(s, at, 4) as u32
}

// Fills out with the floats that stand in s from a place on.
pub fn floats_at(s: &[u8], from: usize, out: &mut [f32])
    requires { from + 4 * length out.old ≤ length s.now }
    ensures { out.new ≡ floats_at (length out.old) s.now from }
{
    for i in 0..out.len() {
        out[i] = sqrt::of_bits(u32_at(s, from + 4 * i));
    }
}
