// Stored answers of the Rust, as lines of text: a letter, then words in hexadecimal, a space before each (compare/VECTORS.md).
// What the programs that replay them share: a line out of the bytes, a field out of lines, and the score.
#![tactic(auto)]

ghost use Rattle.std.specs.Prelude.{◌≡◌, ◌<◌, ◌≤◌, false, length, pos, neg_ℤ};
ghost use Rattle.floats.specs.Floats.{f32};
ghost use Rattle.table.specs.Table.{table};
ghost use Rattle.table.specs.Read.{table_of};
ghost use Rattle.vectors.specs.Vectors.{digit_value, blank_line, with_word, with_digit, longer_line, taken_from};
ghost use Rattle.vectors.specs.Vectors.{low16_of, low32_of, signed_of, not_finite, float_of, same_float};
ghost use Rattle.vectors.specs.Vectors.{empty_field, with_row, field_after, no_score, counted_if, answered_score, scored_line};

use std::fmt;
use table::{Rows, Settings, settings_of};

// A line as far as it was read: its letter, 0 before it, and its words. `longer_line` takes a byte 0 for no letter, so
// it is no Option; the programs read the words past the last as 0, so these are an array.
#[derive(Clone, Copy)]
pub struct Line {
    pub letter: u8,
    pub words: [u64; 16],
    pub count: usize,
}

// A line, and the place where the next one begins.
#[derive(Clone, Copy)]
pub struct Taken {
    pub line: Line,
    pub next: usize,
}

// A fused table or a marched one, under its settings. The calls on a table take whole lists and a count, so it has these.
#[derive(Clone, Copy)]
pub struct Field {
    pub settings: Settings,
    pub keys: [u64; 32],
    pub distances: [f32; 32],
    pub weights: [f32; 32],
    pub rows: usize,
}

// How many answers were asked for and how many came out again; how many were changed by a bit on purpose and how many of these did not come out;
// and whether the next one is changed.
#[derive(Clone, Copy)]
pub struct Score {
    pub asked: u64,
    pub again: u64,
    pub changed: u64,
    pub seen: u64,
    pub changes: bool,
}

fn blank() -> Line
    ensures { result ≡ blank_line }
{
    Line {
        letter: 0,
        words: [0; 16],
        count: 0,
    }
}

// A digit's value; 0 for another byte.
fn digit(byte: u8) -> u64
    ensures value { result ≡ digit_value byte }
    ensures upper_bound { result < 16 }
{
    lines::digit_of(16, byte).map_or(0, u64::from)
}

impl Line {
    // One word more, 0 so far; a full line stays as it is.
    #[tactic(auto, using(std::proofs::lemmas::Bool::Decides::nat_tests), unfolding(crate::specs::Vectors::with_word))]
    fn begin_word(&mut self)
        ensures { self.new ≡ with_word self.old }
    {
        if self.count < self.words.len() {
            self.words[self.count] = 0;
            self.count += 1;
        }
    }

    // One digit more in the last word; a line without words stays as it is.
    #[tactic(auto, using(std::proofs::lemmas::Bool::Decides::nat_tests, crate::proofs::LineLaws::digit_more), unfolding(crate::specs::Vectors::with_digit))]
    fn push_digit(&mut self, digit: u64)
        requires { digit < 16 }
        ensures { self.new ≡ with_digit self.old digit }
    {
        if 0 < self.count && self.count <= self.words.len() {
            let last = self.count - 1;
            self.words[last] = (self.words[last] << 4) | digit;
        }
    }

    // One byte more: the letter, a space before a word, or a digit.
    #[tactic(auto, using(std::proofs::lemmas::Bool::Decides::nat_tests), unfolding(crate::specs::Vectors::longer_line))]
    fn push(&mut self, byte: u8)
        ensures { self.new ≡ longer_line self.old byte }
    {
        if self.letter == 0 {
            self.letter = byte;
            self.count = 0;
        } else if byte == b' ' {
            self.begin_word();
        } else {
            self.push_digit(digit(byte));
        }
    }
}

// The line that begins at a place.
pub fn line_from(bytes: &[u8], start: usize) -> Taken
    ensures value { result ≡ taken_from bytes.now start }
    ensures start_lt_next { start < length bytes.now → start < result.next }
{
    let mut line = blank();
    for i in start..bytes.len() {
        let byte = bytes[i];
        if byte == b'\n' {
            return Taken { line, next: i + 1 };
        }
        line.push(byte);
    }
    Taken {
        line,
        next: start.max(bytes.len()),
    }
}

// The lines of some bytes, from a place on.
#[derive(Clone, Copy)]
pub struct Lines<'a> {
    pub bytes: &'a [u8],
    pub place: usize,
}

impl<'a> Lines<'a> {
    // All of them.
    pub fn of(bytes: &'a [u8]) -> Lines<'a>
        ensures { (result.bytes.now ≡ bytes.now) × (result.place ≡ 0) }
    {
        Lines { bytes, place: 0 }
    }
}

impl<'a> Iterator for Lines<'a> {
    type Item = Line;

    ghost use Rattle.std.specs.Prelude.{◌-◌, length};
    ghost use Rattle.std.specs.Iterator.{at_most};
    ghost use Rattle.vectors.specs.Reading.{NextLine};

    ghost next_gives = { NextLine };

    ghost remaining = { λ lines. at_most (length lines.bytes.now - lines.place) };

    fn next(&mut self) -> Option<Line> {
        if self.bytes.len() <= self.place {
            return None;
        }
        let taken = line_from(self.bytes, self.place);
        self.place = taken.next;
        Some(taken.line)
    }
}

// The low 16 bits.
pub fn low16(word: u64) -> u16
    ensures { result ≡ low16_of word }
{
    (word % 0x1_0000) as u16
}

// The low 32 bits.
fn low32(word: u64) -> u32
    ensures { result ≡ low32_of word }
{
    (word % 0x1_0000_0000) as u32
}

// The i32 of 32 bits.
#[tactic(auto, using(std::proofs::lemmas::Bool::Decides::nat_tests), unfolding(crate::specs::Vectors::signed_of))]
pub fn signed(word: u64) -> i32
    ensures { result ≡ signed_of word }
{
    low32(word).cast_signed()
}

// The f32 of 32 bits; 0 for those of an infinity or a NaN, of which no vector has one.
#[tactic(auto, using(std::proofs::lemmas::Bool::Decides::nat_tests), unfolding(crate::specs::Vectors::float_of))]
pub fn float(word: u64) -> f32
    ensures { result ≡ float_of word }
{
    let bits = low32(word);
    if bits % 0x8000_0000 / 0x80_0000 == 255 {
        0.0
    } else {
        words::float_of_pattern(bits)
    }
}

// The same float, zeros by their sign too.
pub fn same(a: f32, b: f32) -> bool
    ensures { result ≡ same_float a b }
{
    (a == b) & (floats::sign(a) == floats::sign(b))
}

// A field without rows, under the settings of a line.
#[tactic(auto, unfolding(crate::specs::Vectors::empty_field))]
pub fn empty(words: [u64; 16]) -> Field
    ensures { result ≡ empty_field words }
{
    Field {
        settings: settings_of(
            float(words[0]),
            float(words[1]),
            float(words[2]),
            float(words[3]),
        ),
        keys: [0; 32],
        distances: [0.0; 32],
        weights: [0.0; 32],
        rows: 0,
    }
}

// One row more.
#[tactic(auto, using(std::proofs::lemmas::Bool::Decides::nat_tests), unfolding(crate::specs::Vectors::with_row))]
fn with_row(mut field: Field, words: [u64; 16]) -> Field
    ensures { result ≡ with_row field words }
{
    let row = field.rows;
    if row < field.keys.len() {
        field.keys[row] = words[0];
        field.distances[row] = float(words[1]);
        field.weights[row] = float(words[2]);
        field.rows += 1;
    }
    field
}

// The field after a line of settings or of a row; any other leaves it.
#[tactic(auto, using(std::proofs::lemmas::Bool::Decides::nat_tests), unfolding(crate::specs::Vectors::field_after))]
pub fn field_after(field: Field, line: Line) -> Field
    ensures { result ≡ field_after field line }
{
    match line.letter {
        b'S' => empty(line.words),
        b'R' => with_row(field, line.words),
        _ => field,
    }
}

impl Field {
    // The table that a call reads.
    pub fn table(&self) -> Rows<'_>
        ensures { table_of result ≡ table self.now.keys self.now.distances self.now.weights self.now.rows }
    {
        Rows {
            keys: &self.keys,
            distances: &self.distances,
            weights: &self.weights,
            count: self.rows,
        }
    }
}

// No answers yet.
pub fn unscored() -> Score
    ensures { result ≡ no_score }
{
    Score {
        asked: 0,
        again: 0,
        changed: 0,
        seen: 0,
        changes: false,
    }
}

// A counter, one further if so.
#[tactic(auto, unfolding(crate::specs::Vectors::counted_if))]
fn counted(count: u64, so: bool) -> u64
    ensures { result ≡ counted_if so count }
{
    count.wrapping_add(u64::from(so))
}

// One answer more.
#[tactic(auto, unfolding(crate::specs::Vectors::answered_score))]
fn answered(score: Score, good: bool) -> Score
    ensures { result ≡ answered_score score good }
{
    if score.changes {
        Score {
            changed: counted(score.changed, true),
            seen: counted(score.seen, !good),
            changes: false,
            ..score
        }
    } else {
        Score {
            asked: counted(score.asked, true),
            again: counted(score.again, good),
            ..score
        }
    }
}

// The score after a line: settings and rows ask for nothing, and ! says that the next answer is changed.
#[tactic(auto, using(std::proofs::lemmas::Bool::Decides::nat_tests), unfolding(crate::specs::Vectors::scored_line))]
pub fn scored(score: Score, letter: u8, good: bool) -> Score
    ensures { result ≡ scored_line score letter good }
{
    match letter {
        b'S' | b'R' => score,
        b'!' => Score {
            changes: true,
            ..score
        },
        _ => answered(score, good),
    }
}

impl fmt::Display for Score {
    ghost use Rattle.std.specs.Prelude.{◌++◌, Some, codes, decimal};

    ghost output = { λ s. Some (codes "answers of the Rust " ++ (decimal s.asked ++ (codes ", given again " ++ (decimal s.again
        ++ (codes "; changed by a bit " ++ (decimal s.changed ++ (codes ", seen " ++ decimal s.seen))))))) };

    fn fmt<W: fmt::Write>(&self, f: &mut fmt::Formatter<W>) -> fmt::Result {
        write!(
            f,
            "answers of the Rust {}, given again {}; changed by a bit {}, seen {}",
            self.asked, self.again, self.changed, self.seen
        )
    }
}
