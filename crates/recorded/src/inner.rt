// Cases come from the input, numbers in hexadecimal digits with one byte after each; answers are printed, each word after a blank. No contract can say
// which bytes a read or a write moves: of the functions that do it is proved that they are safe and end. None of them can fail: where the input ends or a
// read fails they read 0, and a write that fails is passed over.
ghost use Rattle.std.specs.Prelude.{◌≡◌, ◌%◌, ◌/◌, length};
ghost use Rattle.std.specs.Float.{binary32};
ghost use Rattle.std.specs.Float.Ieee.{of_bits, to_bits};
ghost use Rattle.recorded.specs.Digits.{digit_of};

use paper::Refusal;
use std::io;
use std::io::Read;

// ---- numbers

// The low 32 bits of a word.
pub fn low(w: u64) -> u32
    ensures { result ≡ w % 4294967296 }
{
    (w & 0xffff_ffff) as u32
}

// The high 32 bits of a word.
pub fn high(w: u64) -> u32
    ensures { result ≡ w / 4294967296 }
{
    (w >> 32) as u32
}

// The float whose pattern a number's low 32 bits are.
pub fn float(n: u64) -> f32
    ensures { result ≡ of_bits binary32 (n % 4294967296) }
{
    sqrt::of_bits(low(n))
}

// The low byte of a number.
pub fn byte(n: u64) -> u8
    ensures { result ≡ n % 256 }
{
    (n & 0xff) as u8
}

// What a hexadecimal digit stands for, in lower case; None for any other byte. (By hand: `to_digit` takes upper case too.)
pub(super) fn digit(b: u8) -> Option<u64>
    ensures { result ≡ digit_of b }
{
    match b {
        b'0'..=b'9' => Some(u64::from(b - b'0')),
        b'a'..=b'f' => Some(u64::from(b - b'a') + 10),
        _ => None,
    }
}

// ---- reading

// The next byte of the input; None where it ends or the read fails.
fn next_byte(input: &mut impl Read) -> Option<u8> {
    input.bytes().next()?.ok()
}

// The letter that a line starts with; the byte after it is read too. 0 where the input ends or a read fails.
pub fn letter(input: &mut impl Read) -> u8 {
    let l = next_byte(input);
    next_byte(input);
    l.unwrap_or(0)
}

// The next number; the byte after it is read too, but none after seventeen digits. It ends where the input ends or a read fails, and is 0 if no digit came.
pub fn number(input: &mut impl Read) -> u64 {
    let mut value = 0;
    for _ in 0..17 {
        let Some(d) = next_byte(input).and_then(digit) else {
            break;
        };
        value = value << 4 | d;
    }
    value
}

// A number for each place, made into what stands there.
pub fn fill<T: Copy, F: Fn(u64) -> T>(input: &mut impl Read, out: &mut [T], f: F)
    requires { F.IsAlwaysCallable f }
{
    for place in out.iter_mut() {
        *place = f(number(input));
    }
}

// ---- showing

// Where what a write answers is let go: a failed one stops nothing.
pub fn passed_over(_written: io::Result<()>) {}

// Reads a number and shows it.
pub fn shown(rt: &impl Print, input: &mut impl Read) -> u64 {
    let n = number(input);
    passed_over(print!(rt; " {n}"));
    n
}

// The pattern of a float. Answers it.
pub fn show_float(rt: &impl Print, x: f32) -> u32
    ensures { result ≡ to_bits binary32 x }
{
    let n = sqrt::bits_of(x);
    passed_over(print!(rt; " {n:08x}"));
    n
}

// All patterns. Answers how many there were.
pub fn show_floats(rt: &impl Print, v: &[f32]) -> usize
    ensures { result ≡ length v.now }
{
    for x in v {
        show_float(rt, *x);
    }
    v.len()
}

// Each number, with so many digits at least. Answers how many there were.
pub fn show_all<T: Copy + Into<u64>>(rt: &impl Print, xs: &[T], digits: usize) -> usize
    ensures { result ≡ length xs.now }
{
    for x in xs {
        let n: u64 = (*x).into();
        passed_over(print!(rt; " {n:0digits$x}"));
    }
    xs.len()
}

// `refused` and the number; nothing where the call was accepted.
pub fn show_refused(rt: &impl Print, answer: Result<(), Refusal>) {
    if let Err(refusal) = answer {
        passed_over(print!(rt; " {refusal}"));
    }
}

// The same, and the end of the line.
pub fn show_refusal(rt: &impl Print, answer: Result<(), Refusal>) {
    show_refused(rt, answer);
    passed_over(println!(rt));
}
