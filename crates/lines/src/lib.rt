// The lines that `lastcheck` reads: their shape, from the bytes without the newline (document 01, `lastcheck`).
#![tactic(auto)]

ghost use Rattle.std.specs.Prelude.{◌≡◌, ◌+◌, ◌≤◌, ◌<◌, IfSome, get_or};
ghost use Rattle.lines.specs.Lines.{digit_of, hex_from, word_at, digits_from, number_at, settings_line, reading_line, line_of};
ghost use Rattle.lines.specs.Steps.{end_of};

// What a good line is: P with three words of 32 bits, D with three coordinates and two words, or M.
#[derive(Clone, Copy)]
pub enum Line {
    Settings(u32, u32, u32),
    Reading(u16, u16, u16, u32, u32),
    Mesh,
}

// The value of decimal digits, and the place after them.
#[derive(Clone, Copy)]
struct Digits {
    value: u32,
    next: usize,
}

// The byte at a place, 0 past the end.
fn byte_at(line: &[u8], at: usize) -> u8
    ensures { result ≡ get_or line.now at 0 }
{
    line.get(at).copied().unwrap_or(0)
}

// The value of a digit below a radix: `0` to `9`, then `a` to `f`.
#[tactic(auto, using(std::proofs::lemmas::Bool::Decides::nat_tests), unfolding(crate::specs::Lines::digit_of))]
pub fn digit_of(radix: u32, byte: u8) -> Option<u32>
    ensures value { result ≡ digit_of radix byte }
    ensures below { IfSome result (λ d. d < radix) }
{
    let digit = match byte {
        b'0'..=b'9' => u32::from(byte - b'0'),
        b'a'..=b'f' => u32::from(byte - b'a') + 10,
        _ => return None,
    };
    (digit < radix).then_some(digit)
}

// Eight hex digits from a place on.
fn hex_from(line: &[u8], at: usize) -> Option<u32>
    requires { at ≤ 1000 }
    ensures { result ≡ hex_from 8 line.now at 0 }
{
    let mut bits: u32 = 0;
    for i in 0..8 {
        let digit = digit_of(16, byte_at(line, at + i))?;
        bits = bits * 16 + digit;
    }
    Some(bits)
}

// A space and eight hex digits.
#[tactic(auto, using(std::proofs::lemmas::Bool::Decides::nat_tests), unfolding(crate::specs::Lines::word_at))]
fn word_at(line: &[u8], at: usize) -> Option<u32>
    requires { at < 1000 }
    ensures { result ≡ word_at line.now at }
{
    if byte_at(line, at) == b' ' {
        hex_from(line, at + 1)
    } else {
        None
    }
}

// At most five decimal digits from a place on.
fn digits_from(line: &[u8], at: usize) -> Digits
    requires { at ≤ 1000 }
    ensures value { result ≡ digits_from 5 line.now at 0 }
    ensures next_bound { result.next ≤ at + 5 }
{
    let mut value: u32 = 0;
    for i in 0..5 {
        let Some(digit) = digit_of(10, byte_at(line, at + i)) else {
            return Digits {
                value,
                next: at + i,
            };
        };
        value = value * 10 + digit;
    }
    Digits {
        value,
        next: at + 5,
    }
}

// A space and a coordinate: 0 to 65,535 without leading zeros.
#[tactic(auto, using(std::proofs::lemmas::Bool::Decides::nat_tests), unfolding(crate::specs::Lines::number_at))]
fn number_at(line: &[u8], at: usize) -> Option<(u16, usize)>
    requires { at < 1000 }
    ensures value { result ≡ number_at line.now at }
    ensures result_bound { end_of result ≤ at + 6 }
{
    if byte_at(line, at) != b' ' {
        return None;
    }
    let from = at + 1;
    let first = byte_at(line, from);
    if first == b'0' {
        return Some((0, from + 1));
    }
    digit_of(10, first)?;
    let digits = digits_from(line, from);
    let value = u16::try_from(digits.value).ok()?;
    Some((value, digits.next))
}

// The rest of a line that begins with P.
#[tactic(auto, using(std::proofs::lemmas::Bool::Decides::nat_tests), unfolding(crate::specs::Lines::settings_line))]
fn settings_line(line: &[u8]) -> Option<Line>
    ensures { result ≡ settings_line line.now }
{
    let truncation = word_at(line, 1)?;
    let weight = word_at(line, 10)?;
    let size = word_at(line, 19)?;
    (line.len() == 28).then_some(Line::Settings(truncation, weight, size))
}

// The rest of a line that begins with D.
#[tactic(auto, using(std::proofs::lemmas::Bool::Decides::nat_tests), unfolding(crate::specs::Lines::reading_line))]
fn reading_line(line: &[u8]) -> Option<Line>
    ensures { result ≡ reading_line line.now }
{
    let (x, after_x) = number_at(line, 1)?;
    let (y, after_y) = number_at(line, after_x)?;
    let (z, after_z) = number_at(line, after_y)?;
    let distance = word_at(line, after_z)?;
    let confidence = word_at(line, after_z + 9)?;
    (line.len() == after_z + 18).then_some(Line::Reading(x, y, z, distance, confidence))
}

// What a line is, from its bytes without the newline; none where it is bad.
#[tactic(auto, using(std::proofs::lemmas::Bool::Decides::nat_tests), unfolding(crate::specs::Lines::line_of))]
pub fn line_of(line: &[u8]) -> Option<Line>
    ensures { result ≡ line_of line.now }
{
    match byte_at(line, 0) {
        b'P' => settings_line(line),
        b'D' => reading_line(line),
        b'M' => (line.len() == 1).then_some(Line::Mesh),
        _ => None,
    }
}
