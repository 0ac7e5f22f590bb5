// Small functions on f32 and tests of it, each defined for every input, a NaN included. Document 01 asks that abs, min, clamp, signum
// and round are worked out in the program, so they don't call the library's.
#![tactic(auto)]

ghost use Rattle.std.specs.Prelude.{◌≡◌, true};
ghost use Rattle.std.specs.Float.Ieee.{lt};
ghost use Rattle.floats.specs.Floats.{size_of, smaller_of, larger_of, clamp_of, sign_of, is_finite, between, within, beyond, positive_to, signed, whole_of};
ghost use Rattle.floats.specs.Steps.{too_large_lem, size_up};

use refusals::Refusal;

// A length in metres.
#[derive(Clone, Copy)]
pub struct Metres(pub f32);

// |x|, as Rust's abs.
pub fn size(x: f32) -> f32
    ensures { result ≡ size_of x }
{
    if x == 0.0 {
        0.0
    } else if x < 0.0 {
        -x
    } else {
        x
    }
}

// a, unless b is strictly below it.
pub fn smaller(a: f32, b: f32) -> f32
    ensures { result ≡ smaller_of a b }
{
    if b < a { b } else { a }
}

// a, unless b is strictly above it.
pub fn larger(a: f32, b: f32) -> f32
    ensures { result ≡ larger_of a b }
{
    if a < b { b } else { a }
}

// x within lo and hi, as Rust's clamp.
pub fn clamp(x: f32, lo: f32, hi: f32) -> f32
    ensures { result ≡ clamp_of x lo hi }
{
    if x < lo {
        lo
    } else if hi < x {
        hi
    } else {
        x
    }
}

// 1.0 or -1.0 by the sign bit, so -1.0 for -0, as Rust's signum; a NaN for a NaN.
pub fn sign(x: f32) -> f32
    ensures { result ≡ sign_of x }
{
    if x != x {
        return x;
    }
    if f32::to_bits(x) < 0x8000_0000 {
        1.0
    } else {
        -1.0
    }
}

// Neither a NaN nor an infinity.
pub fn is_finite(x: f32) -> bool
    ensures { result ≡ is_finite x }
{
    let infinity = f32::from_bits(0x7f80_0000);
    (-infinity < x) & (x < infinity)
}

// From lo to hi, both ends with it.
pub fn between(lo: f32, hi: f32, x: f32) -> bool
    ensures { result ≡ between lo hi x }
{
    (lo <= x) & (x <= hi)
}

// At most `most` in size.
pub fn within(most: f32, x: f32) -> bool
    ensures { result ≡ within most x }
{
    (-most <= x) & (x <= most)
}

// Larger than `most` in size.
pub fn beyond(most: f32, x: f32) -> bool
    ensures { result ≡ beyond most x }
{
    (most < x) | (x < -most)
}

// Above 0, up to hi.
pub fn positive_to(hi: f32, x: f32) -> bool
    ensures { result ≡ positive_to hi x }
{
    (0.0 < x) & (x <= hi)
}

// |x| to the nearest whole number, halves up.
fn halves_up(x: f32) -> u64
    requires { lt (size_of x) too_large_lem ≡ true }
    ensures { result ≡ size_up x }
{
    let s = size(x);
    (std::num::truncating_f32_to_u64(s + s) + 1) / 2
}

// A whole size with a sign, if it is an i32.
fn with_sign(below: bool, w: u64) -> Result<i32, Refusal>
    ensures { result ≡ signed below w }
{
    if below {
        if w <= 0x8000_0000 {
            Ok((0 - (w as i64)) as i32)
        } else {
            Err(Refusal::OutOfRange)
        }
    } else if w <= 0x7fff_ffff {
        Ok(w as i32)
    } else {
        Err(Refusal::OutOfRange)
    }
}

// The nearest whole number, halves away from zero, as Rust's round, if it is an i32.
pub fn round_whole(x: f32) -> Result<i32, Refusal>
    ensures { result ≡ whole_of x }
{
    if size(x) < 4294967296.0 {
        with_sign(x < 0.0, halves_up(x))
    } else {
        Err(Refusal::OutOfRange)
    }
}
