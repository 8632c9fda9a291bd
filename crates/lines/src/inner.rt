// Lines put into a buffer at a place. Each call asks for the room that its longest text needs, and answers the place behind what it put.
ghost use Rattle.std.specs.Prelude.{◌≡◌, ◌+◌, ◌*◌, ◌≤◌, [], ◌∷◌, ◌++◌, length};
ghost use Rattle.lines.specs.Lines.{Put, trimmed, decimal, hexadecimal, glyph, told, entry, listing};

use super::Told;

// A text as it is.
pub fn put_text(out: &mut [u8], at: usize, text: &[u8]) -> usize
    requires { at + length text.now ≤ length out.old }
    ensures { Put out.old out.new at result text.now }
{
    let end = at + text.len();
    out[at..end].copy_from_slice(text);
    end
}

// The text without its leading zeros, of which the last byte stays.
fn trimmed_part(text: &[u8]) -> &[u8]
    ensures { result.now ≡ trimmed text.now }
{
    for (i, digit) in text.iter().enumerate() {
        if text.len() - i == 1 || *digit != b'0' {
            return &text[i..];
        }
    }
    text
}

// A number in decimal: all ten digits that 32 bits can have, then the part without leading zeros. (Not by the library's formatting: it
// goes to a writer, which would have to borrow the lent buffer and keep the place.)
pub fn put_decimal(out: &mut [u8], at: usize, n: u32) -> usize
    requires { at + 10 ≤ length out.old }
    ensures { Put out.old out.new at result (decimal n) }
{
    let digits = [
        (48 + n / 1000000000 % 10) as u8,
        (48 + n / 100000000 % 10) as u8,
        (48 + n / 10000000 % 10) as u8,
        (48 + n / 1000000 % 10) as u8,
        (48 + n / 100000 % 10) as u8,
        (48 + n / 10000 % 10) as u8,
        (48 + n / 1000 % 10) as u8,
        (48 + n / 100 % 10) as u8,
        (48 + n / 10 % 10) as u8,
        (48 + n % 10) as u8,
    ];
    put_text(out, at, trimmed_part(&digits))
}

// One hexadecimal digit, upper case. (By hand for the same reason.)
fn glyph(x: u32) -> u8
    requires { x ≤ 15 }
    ensures { result ≡ glyph x }
{
    if x < 10 {
        b'0' + x as u8
    } else {
        b'A' + (x - 10) as u8
    }
}

// A number as eight hexadecimal digits. (Not by the library's formatting, as above.)
pub fn put_hexadecimal(out: &mut [u8], at: usize, n: u32) -> usize
    requires { at + 8 ≤ length out.old }
    ensures { Put out.old out.new at result (hexadecimal n) }
{
    let digits = [
        glyph(n / 268435456 % 16),
        glyph(n / 16777216 % 16),
        glyph(n / 1048576 % 16),
        glyph(n / 65536 % 16),
        glyph(n / 4096 % 16),
        glyph(n / 256 % 16),
        glyph(n / 16 % 16),
        glyph(n % 16),
    ];
    put_text(out, at, &digits)
}

// A word with a number behind it.
fn put_number(out: &mut [u8], at: usize, word: &[u8], n: u32) -> usize
    requires { at + length word.now + 10 ≤ length out.old }
    ensures { Put out.old out.new at result (word.now ++ decimal n) }
{
    let p = put_text(out, at, word);
    put_decimal(out, p, n)
}

// The same with the line's end.
fn put_line(out: &mut [u8], at: usize, word: &[u8], n: u32) -> usize
    requires { at + length word.now + 11 ≤ length out.old }
    ensures { Put out.old out.new at result (word.now ++ decimal n ++ (10 ∷ [])) }
{
    let p = put_number(out, at, word, n);
    put_text(out, p, b"\n")
}

// The first line that a record prints, of at most 64 bytes.
pub fn put_told(out: &mut [u8], at: usize, t: Told) -> usize
    requires { at + 64 ≤ length out.old }
    ensures { Put out.old out.new at result (told t) }
{
    match t {
        Told::Refused(n) => put_line(out, at, b"refused ", n),
        Told::Geometry(d, n, cap, mode) => {
            let p = put_number(out, at, b"geometry ", d);
            let q = put_number(out, p, b" ", n);
            let s = put_number(out, q, b" ", cap);
            put_line(out, s, b" ", mode)
        }
        Told::Basis(b) => put_line(out, at, b"basis ", b),
        Told::Added(id) => put_line(out, at, b"added ", id),
        Told::Found(len, checked) => {
            let p = put_number(out, at, b"found ", len);
            put_line(out, p, b" checked ", checked)
        }
    }
}

// One entry of a list: the id, a space, the score's bits, the line's end; at most 20 bytes.
fn put_entry(out: &mut [u8], at: usize, id: u32, score: f32) -> usize
    requires { at + 20 ≤ length out.old }
    ensures { Put out.old out.new at result (entry id score) }
{
    let p = put_decimal(out, at, id);
    let q = put_text(out, p, b" ");
    let s = put_hexadecimal(out, q, sqrt::bits_of(score));
    put_text(out, s, b"\n")
}

// The list of a search, a line for each of its first n entries.
pub fn put_listing(out: &mut [u8], at: usize, ids: &[u32], scores: &[f32], n: usize) -> usize
    requires { (at + n * 20 ≤ length out.old) × (n ≤ length ids.now) × (n ≤ length scores.now) }
    ensures { Put out.old out.new at result (listing n ids.now scores.now) }
{
    let mut p = at;
    for i in 0..n {
        p = put_entry(out, p, ids[i], scores[i]);
    }
    p
}
