// Words of four bytes in a list of bytes, the least byte first (document 02, No. 1).
#![tactic(auto)]

ghost use Rattle.std.specs.Prelude.{◌≡◌, ◌+◌, ◌≤◌, ◌<◌, length, get_or};
ghost use Rattle.std.proofs.lemmas.List.Edits.{sets};
ghost use Rattle.floats.specs.Floats.{f32};
ghost use Rattle.words.specs.Words.{zeros, bytes_of, word_from};

// The most places of a list that is read or written as a file.
pub const LONGEST_FILE: usize = 52_428_884;

// So many zeros from a place on.
pub fn write_zeros(list: &mut [u8], at: usize, count: usize)
    requires { at + count ≤ length list.old }
    ensures { list.new ≡ sets list.old at (zeros count) }
{
    list[at..at + count].fill(0);
}

// A word's four bytes from a place on.
pub fn write_word(list: &mut [u8], at: usize, word: u32)
    requires { at + 4 ≤ length list.old }
    ensures { list.new ≡ sets list.old at (bytes_of word) }
{
    list[at..at + 4].copy_from_slice(&word.to_le_bytes());
}

// The word of the four bytes from a place on.
pub fn read_word(list: &[u8], at: usize) -> u32
    requires { at + 4 ≤ length list.now }
    ensures { result ≡ word_from list.now at }
{
    u32::from_le_bytes([list[at], list[at + 1], list[at + 2], list[at + 3]])
}

// The float of a pattern of 32 bits; a NaN for a NaN's.
pub fn float_of_pattern(bits: u32) -> f32
    ensures { result ≡ f32 bits }
{
    if 0x7f80_0000 < bits % 0x8000_0000 {
        f32::NAN
    } else {
        f32::from_bits(bits)
    }
}
