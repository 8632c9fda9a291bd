// Cases from a buffer: a program that reads its whole input first sees as much of it as its buffer holds. Here a number has any number of digits, of which
// the last sixteen count.
ghost use Rattle.std.specs.Prelude.{ℕ, ◌≡◌, ◌+◌, ◌<◌, ◌≤◌, min, length, slice_index, drop};
ghost use Rattle.std.specs.Slice.Iter.{iter_rest};
ghost use Rattle.recorded.specs.Digits.{letter_of, number_of, behind_number, behind_numbers};

use super::inner::digit;
use std::slice;

// The descriptor of the standard input.
const STDIN_FILENO: i32 = 0;

// Fills the buffer from the standard input, until that ends or a read fails; what was read.
pub fn read_input(buffer: &mut [u8]) -> &[u8]
    ensures { length result.now ≤ length buffer.old }
{
    let got = io::read_full(STDIN_FILENO, buffer);
    &buffer[..got]
}

// The letter that a line starts with; the byte after it is passed over. None where less than two bytes are left.
pub fn letter(input: &mut slice::Iter<'_, u8>) -> Option<u8>
    ensures value { result ≡ letter_of (iter_rest input.old) }
    ensures rest { iter_rest input.new ≡ drop 2 (iter_rest input.old) }
{
    let letter = *input.next()?;
    input.next()?;
    Some(letter)
}

// The next number; the byte after it is passed over. 0 where the input ends. (No `for` over the input: of it nothing would be known afterwards.)
#[tactic(auto, using(crate::proofs::Numbers::number_step))]
pub fn number(input: &mut slice::Iter<'_, u8>) -> u64
    ensures value { result ≡ number_of (iter_rest input.old) }
    ensures rest { iter_rest input.new ≡ behind_number (iter_rest input.old) }
{
    let mut value = 0;
    while let Some(b) = input.next() {
        let Some(d) = digit(*b) else {
            break;
        };
        value = value << 4 | d;
    }
    value
}

// A number and as many numbers after it, which become the first words, though no more than there are words; how many that are.
pub fn load(input: &mut slice::Iter<'_, u8>, words: &mut [u64]) -> usize
    ensures count { result ≡ min (length words.old) (number_of (iter_rest input.old)) }
    ensures rest { iter_rest input.new ≡ behind_numbers (result + 1) (iter_rest input.old) }
    ensures loaded { (k : ℕ) → k < result → slice_index words.new k ≡ number_of (behind_numbers (k + 1) (iter_rest input.old)) }
    ensures kept { (k : ℕ) → result ≤ k → slice_index words.new k ≡ slice_index words.old k }
{
    let n = words.len().min(number(input) as usize);
    for place in words[..n].iter_mut() {
        *place = number(input);
    }
    n
}
