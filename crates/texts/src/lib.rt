// The lines that `lastcheck` prints, written into a lent list of bytes; what has no place is left out (document 01, `lastcheck`).
#![tactic(auto)]

ghost use Rattle.std.specs.Prelude.{◌≡◌, ◌+◌, ◌≤◌, ◌<◌, ◌^◌, [], ◌∷◌, length};
ghost use Rattle.std.proofs.lemmas.List.Edits.{sets};
ghost use Rattle.std.specs.Float.Ieee.{to_bits};
ghost use Rattle.std.specs.Float.{binary32};
ghost use Rattle.texts.specs.Texts.{glyph, hex_field, decimal, counts_line, vertex_line, bad_line, refused_line};
ghost use Rattle.texts.specs.Steps.{Wrote};

use refusals::Refusal;

// A byte at a place, and the place after it. A `write!` promises its text on Ok alone, and these lines are promised on
// every call, so they are put by functions of their own.
fn put(out: &mut [u8], at: usize, byte: u8) -> usize
    requires { at + 1 < 2 ^ 64 }
    ensures { Wrote out.old at (byte ∷ []) out.new result }
{
    if at < out.len() {
        out[at] = byte;
    }
    at + 1
}

// A text from a place on, and the place after it.
fn put_text(out: &mut [u8], at: usize, text: &[u8]) -> usize
    requires { at ≤ 1000 }
    ensures { Wrote out.old at text.now out.new result }
{
    let mut next = at;
    for byte in text {
        next = put(out, next, *byte);
    }
    next
}

// A hex digit.
fn hex_digit(value: u32) -> u8
    requires { value < 16 }
    ensures { result ≡ glyph value }
{
    if value < 10 {
        b'0' + value as u8
    } else {
        b'a' + (value - 10) as u8
    }
}

// A space and a word's eight hex digits, and the place after them.
fn put_word(out: &mut [u8], at: usize, word: u32) -> usize
    requires { at + 9 < 2 ^ 64 }
    ensures { Wrote out.old at (hex_field word) out.new result }
{
    let mut next = put(out, at, b' ');
    for place in (0..8u32).rev() {
        next = put(out, next, hex_digit(word / 16u32.pow(place) % 16));
    }
    next
}

// A number in decimal, its digits put at the end of twenty places first, and the place after it.
// The loop stays a while: it counts the number down, and ends by its value.
fn put_decimal(out: &mut [u8], at: usize, number: u64) -> usize
    requires { at ≤ 1000 }
    ensures wrote { Wrote out.old at (decimal number) out.new result }
    ensures upper_bound { result ≤ at + 20 }
{
    let mut digits = [0u8; 20];
    let mut start = 19;
    let mut rest = number;
    while 10 <= rest {
        digits[start] = b'0' + (rest % 10) as u8;
        rest /= 10;
        start -= 1;
    }
    digits[start] = b'0' + rest as u8;
    put_text(out, at, &digits[start..])
}

// `rows`, `edges` and `triangles`, each with its number; how long the line is.
pub fn counts_line(out: &mut [u8], rows: u64, edges: u64, triangles: u64) -> usize
    ensures value { result ≡ length (counts_line rows edges triangles) }
    ensures out_after { out.new ≡ sets out.old 0 (counts_line rows edges triangles) }
{
    let a0 = put_text(out, 0, b"rows ");
    let a1 = put_decimal(out, a0, rows);
    let a2 = put_text(out, a1, b" edges ");
    let a3 = put_decimal(out, a2, edges);
    let a4 = put_text(out, a3, b" triangles ");
    let a5 = put_decimal(out, a4, triangles);
    put(out, a5, b'\n')
}

// `bad` and a line's number; how long the line is.
pub fn bad_line(out: &mut [u8], number: u64) -> usize
    ensures value { result ≡ length (bad_line number) }
    ensures out_after { out.new ≡ sets out.old 0 (bad_line number) }
{
    let a0 = put_text(out, 0, b"bad ");
    let a1 = put_decimal(out, a0, number);
    put(out, a1, b'\n')
}

// `refused` and a refusal's number; how long the line is.
pub fn refused_line(out: &mut [u8], why: Refusal) -> usize
    ensures value { result ≡ length (refused_line why) }
    ensures out_after { out.new ≡ sets out.old 0 (refused_line why) }
{
    let a0 = put_text(out, 0, b"refused ");
    let a1 = put_decimal(out, a0, u32::from(why) as u64);
    put(out, a1, b'\n')
}

// A float's bits; a NaN has one pattern.
fn bits_of(x: f32) -> u32
    ensures { result ≡ to_bits binary32 x }
{
    if x.is_nan() { 0x7fc0_0000 } else { x.to_bits() }
}

// `v` and the bits of a vertex's place, from the place `at` on.
pub fn vertex_line(out: &mut [u8], at: usize, x: f32, y: f32, z: f32)
    ensures { out.new ≡ sets out.old at (vertex_line x y z) }
{
    if at < out.len() {
        let a0 = put(out, at, b'v');
        let a1 = put_word(out, a0, bits_of(x));
        let a2 = put_word(out, a1, bits_of(y));
        let a3 = put_word(out, a2, bits_of(z));
        put(out, a3, b'\n');
    }
}
