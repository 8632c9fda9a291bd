// The calls for C and Rust that take numbers and answer a number: roots and halves by their bits, and how much a caller has to lend. Each is the
// public function that its comment names; none asks anything of its caller.
#![tactic(auto)]

ghost use Rattle.std.specs.Prelude.{◌≡◌};
ghost use Rattle.paper.specs.Geometry.{geo, lengths_of};
ghost use Rattle.sqrt.specs.Root.{Sqrt};
ghost use Rattle.quantization.specs.Bf16.{lowered, widened};

use paper::Geometry;

// ---- bits

// The bits of the root of the binary32 with these bits (sqrt::sqrt_bits).
#[unsafe(no_mangle)]
pub extern "C" fn bbq_sqrt(bits: u32) -> u32
    ensures { Sqrt bits result }
{
    sqrt::sqrt_bits(bits)
}

// The bits of the bf16 of the binary32 with these bits (quantization::lower).
#[unsafe(no_mangle)]
pub extern "C" fn bbq_lower(bits: u32) -> u16
    ensures { result ≡ lowered bits }
{
    quantization::lower(bits)
}

// The bits of the binary32 of a bf16 (quantization::widen).
#[unsafe(no_mangle)]
pub extern "C" fn bbq_widen(half: u16) -> u32
    ensures { result ≡ widened half }
{
    quantization::widen(half)
}

// ---- how much to lend, in floats, words of 64 bits, or bytes; 0 for a geometry that the calls refuse (paper's Geometry::lengths)

// The floats of the bases.
#[unsafe(no_mangle)]
pub extern "C" fn bbq_bases_len(d: usize, n: usize, cap: usize, mode: usize) -> usize
    ensures { result ≡ (lengths_of (geo d n cap mode)).bases }
{
    Geometry { d, n, cap, mode }.lengths().bases
}

// The words of the face sets.
#[unsafe(no_mangle)]
pub extern "C" fn bbq_faces_len(d: usize, n: usize, cap: usize, mode: usize) -> usize
    ensures { result ≡ (lengths_of (geo d n cap mode)).faces }
{
    Geometry { d, n, cap, mode }.lengths().faces
}

// The words of the present marks.
#[unsafe(no_mangle)]
pub extern "C" fn bbq_marks_len(d: usize, n: usize, cap: usize, mode: usize) -> usize
    ensures { result ≡ (lengths_of (geo d n cap mode)).marks }
{
    Geometry { d, n, cap, mode }.lengths().marks
}

// The bytes of the stored vectors.
#[unsafe(no_mangle)]
pub extern "C" fn bbq_vectors_len(d: usize, n: usize, cap: usize, mode: usize) -> usize
    ensures { result ≡ (lengths_of (geo d n cap mode)).vectors }
{
    Geometry { d, n, cap, mode }.lengths().vectors
}

// The floats of the work memory.
#[unsafe(no_mangle)]
pub extern "C" fn bbq_work_len(d: usize, n: usize, cap: usize, mode: usize) -> usize
    ensures { result ≡ (lengths_of (geo d n cap mode)).floats }
{
    Geometry { d, n, cap, mode }.lengths().floats
}

// The words of a search's counting layers.
#[unsafe(no_mangle)]
pub extern "C" fn bbq_layers_len(d: usize, n: usize, cap: usize, mode: usize) -> usize
    ensures { result ≡ (lengths_of (geo d n cap mode)).layers }
{
    Geometry { d, n, cap, mode }.lengths().layers
}

// The words of the set that a search merges.
#[unsafe(no_mangle)]
pub extern "C" fn bbq_set_len(d: usize, n: usize, cap: usize, mode: usize) -> usize
    ensures { result ≡ (lengths_of (geo d n cap mode)).set }
{
    Geometry { d, n, cap, mode }.lengths().set
}
