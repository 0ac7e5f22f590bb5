// The square root of an f32: the nearest f32, ties to even, worked out in whole numbers from the
// bit pattern, as document 01 asks, and not by f32's sqrt, which would be trusted. A unit is the smallest f32 above zero,
// 2 ^ -149.
#![tactic(auto)]

ghost use Rattle.std.specs.Prelude.{◌≡◌, ◌*◌, ◌^◌, ◌<◌, ◌≤◌, true, from_bits, to_bits};
ghost use Rattle.std.specs.Float.{binary32};
ghost use Rattle.std.specs.Float.Ieee.{le};
ghost use Rattle.floats.specs.Floats.{zero32};
ghost use Rattle.root.specs.Root.{root_of, root_answer};
ghost use Rattle.root.specs.Steps.{units_of_one, units_of, Near, LeadOf, ScaledOf};

use refusals::Refusal;

// A number of units as n * 2 ^ j units, n having 24 digits.
#[derive(Clone, Copy)]
struct Lead {
    n: u32,
    j: u32,
}

// A number of units times 2 ^ 149 as m * 4 ^ k, m having 47 or 48 digits, and a hint: the 24 leading ones.
#[derive(Clone, Copy)]
struct Scaled {
    m: u64,
    k: u32,
    lead: u64,
}

// A number of units below 2 ^ 23 times the power of two that gives it 24 digits.
fn lifted(t: u32) -> Lead
    requires { (0 < t) × (t < 2 ^ 23) }
    ensures { LeadOf (t * units_of_one) result.n result.j }
{
    let up = 23 - t.ilog2();
    Lead {
        n: t << up,
        j: 149 - up,
    }
}

// The units of the bit pattern b, times 2 ^ 149, by the leading 24 digits.
fn lead_of(b: u32) -> Lead
    requires { (0 < b) × (b < 0x7f80_0000) }
    ensures { LeadOf (units_of b * units_of_one) result.n result.j }
{
    if b < 0x80_0000 {
        lifted(b)
    } else {
        Lead {
            n: 0x80_0000 + b % 0x80_0000,
            j: b / 0x80_0000 + 148,
        }
    }
}

// The same by an even power of two.
fn scaled_of(b: u32) -> Scaled
    requires { (0 < b) × (b < 0x7f80_0000) }
    ensures { ScaledOf (units_of b * units_of_one) result.m result.k }
{
    let l = lead_of(b);
    let n = l.n as u64;
    let j = l.j;
    if j % 2 == 1 {
        Scaled {
            m: n * 0x80_0000,
            k: (j - 23) / 2,
            lead: n,
        }
    } else {
        Scaled {
            m: n * 0x100_0000,
            k: (j - 24) / 2,
            lead: n,
        }
    }
}

// The whole number nearest to the root of m: the whole part, then the half.
fn whole_root(m: u64) -> u64
    requires { (0 < m) × (m < 2 ^ 48) }
    ensures { Near m result }
{
    let r = m.isqrt();
    if m - r * r <= r { r } else { r + 1 }
}

// The digits of a * b above the low 32.
fn high(a: u64, b: u64) -> u64
    requires { (a < 2 ^ 32) × (b ≤ 2 ^ 32) }
    ensures { result ≤ a }
{
    a * b / 0x1_0000_0000
}

// About 2 ^ 31 / √(1 + z / 2 ^ 23), a little less, for the low 23 digits z of `lead`, by a polynomial of degree 5. It is only
// promised to be small.
fn inverse_guess(lead: u64) -> u64
    ensures { result < 2 ^ 32 }
{
    let z = lead % 0x80_0000;
    let square = z * z / 0x4000;
    let first = 0x7fff_3c28 - 0x3fe2_b852 * z / 0x80_0000;
    let second = 0x2e87_b43c - 0x20ae_c85f * z / 0x80_0000;
    let third = 0x1091_6dcd - 0x0405_0b21 * z / 0x80_0000;
    first + high(second + high(third, square), square)
}

// A guess at the whole number nearest to the root of m, or one less: m / √m to half the digits, and one step of Newton's
// method, rounded. `lead` is the 24 leading digits of m. It is only promised to be small.
fn root_guess(m: u64, lead: u64) -> u64
    requires { m < 2 ^ 48 }
    ensures { result < 2 ^ 27 }
{
    // times 1 / √2 where m has 48 digits
    let scale = 0x1_0000_0000 - m / 0x8000_0000_0000 * 0x4afb_0ccd;
    let inverse = high(inverse_guess(lead), scale);
    let s = high(m / 0x1_0000, inverse) / 0x40;
    let left = std::num::wrapping_sub_u64(m, s * s) % 0x80_0000_0000;
    s + (left * (inverse / 0x100) + 0x4000_0000_0000) / 0x8000_0000_0000
}

// The whole number nearest to the root of m: the guess or the next number, if one passes the test.
fn near_root(m: u64, lead: u64) -> u64
    requires { (0 < m) × (m < 2 ^ 48) }
    ensures { Near m result }
{
    let q = root_guess(m, lead);
    if q * q < m + q {
        if m <= q * q + q {
            return q;
        }
    }
    let n = q + 1;
    if n * n < m + n {
        if m <= n * n + n {
            return n;
        }
    }
    whole_root(m)
}

// The bit pattern of the root of the value above zero whose bit pattern is b.
fn root_bits(b: u32) -> u32
    requires { (0 < b) × (b < 0x7f80_0000) }
    ensures { result ≡ to_bits binary32 (root_of (from_bits binary32 b)) }
{
    let s = scaled_of(b);
    let q = near_root(s.m, s.lead) as u32;
    s.k * 0x80_0000 + q
}

// The root of a value that is not below zero.
fn root_taken(x: f32) -> f32
    requires { le zero32 x ≡ true }
    ensures { result ≡ root_of x }
{
    if x == 0.0 {
        return x;
    }
    let b = f32::to_bits(x);
    if b < 0x7f80_0000 {
        f32::from_bits(root_bits(b))
    } else {
        x
    }
}

// The root of x, refused for a NaN and below zero. -0 gives -0, and the infinity gives itself.
pub fn root(x: f32) -> Result<f32, Refusal>
    ensures { result ≡ root_answer x }
{
    if 0.0 <= x {
        Ok(root_taken(x))
    } else {
        Err(Refusal::BadReading)
    }
}
