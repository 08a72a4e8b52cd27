//! Reads numbers from lines of digit names.

ghost use Rattle.std.specs.Prelude.{◌≡◌, ◌+◌, ◌<◌, ◌≤◌, drop, length, map, slice_range, IfSome};
ghost use Rattle.std.specs.Prelude.{IfErr, bit_or, true};
ghost use Rattle.std.specs.Int.Digits.{number_from_digits_after};
ghost use Rattle.std.specs.List.{position_or_len};
ghost use Rattle.ick_bits.specs.White.{is_white_byte};
ghost use Rattle.ick_bits.specs.Digits.{begins_word, word_at, digit_of, line_answer, IsWithinLine};

use crate::white::is_white;

/// Why a line is not a number.
#[derive(Clone, Copy, Debug)]
pub enum DigitFault {
    /// The first word that names no digit. It begins at byte `from` of the line and ends before
    /// byte `to`.
    Word { from: usize, to: usize },
    /// Each word names a digit, and the number is above 4294967295.
    TooLarge,
}

/// Packs the letters of a name into a number, as `packed` does with a word.
macro_rules! letters {
    (@ $packed:expr;) => {
        $packed
    };
    (@ $packed:expr; $first:literal $($rest:literal)*) => {
        letters!(@ ($packed) * 256 + $first as u64; $($rest)*)
    };
    ($($letter:literal)*) => {
        letters!(@ 1; $($letter)*)
    };
}

/// The names of the digits, packed, and the digits.
pub(crate) static NAMES: [(u64, u8); 12] = [
    (letters!(b'o' b'h'), 0),
    (letters!(b'z' b'e' b'r' b'o'), 0),
    (letters!(b'o' b'n' b'e'), 1),
    (letters!(b't' b'w' b'o'), 2),
    (letters!(b't' b'h' b'r' b'e' b'e'), 3),
    (letters!(b'f' b'o' b'u' b'r'), 4),
    (letters!(b'f' b'i' b'v' b'e'), 5),
    (letters!(b's' b'i' b'x'), 6),
    (letters!(b's' b'e' b'v' b'e' b'n'), 7),
    (letters!(b'e' b'i' b'g' b'h' b't'), 8),
    (letters!(b'n' b'i' b'n' b'e'), 9),
    (letters!(b'n' b'i' b'n' b'e' b'r'), 9),
];

/// How many letters the longest name has.
const LONGEST: usize = 5;

/// One more than the greatest number.
const LIMIT: u64 = 4294967296;

/// Returns the number that a line writes by the names of its decimal digits, the most significant
/// first (Revised Manual, 4.4.12, after INTERCAL-72). White bytes separate the names. Their letters
/// are capital or small. A line without a word is 0 (this profile).
///
/// Returns `DigitFault::Word` if a word anywhere in the line names no digit. It holds the bounds of
/// the first such word, which has at least one byte and ends within the line. Returns
/// `DigitFault::TooLarge` if each word names a digit and the number is above 4294967295.
pub fn digits_value(line: &[u8]) -> Result<u32, DigitFault>
    ensures answer { result ≡ line_answer line.now }
    ensures within { IfErr result (λ fault. IsWithinLine line.now fault) }
{
    let mut value: u64 = 0;
    let mut from = 0;
    'words: while from < line.len() {
        if is_white(line[from]) {
            from += 1;
        } else {
            let to = word_end(line, from);
            match digit_named(&line[from..to]) {
                Some(digit) => value = (value * 10 + u64::from(digit)).min(LIMIT),
                None => return Err(DigitFault::Word { from, to }),
            }
            from = to;
        }
    }
    if value == LIMIT {
        return Err(DigitFault::TooLarge);
    }
    Ok(value as u32)
}

/// Returns the end of the word that begins at `from`.
#[tactic(auto, using(crate::proofs::DigitLemmas::ink_le), unfolding(crate::specs::Digits::word_at))]
fn word_end(line: &[u8], from: usize) -> usize
    requires position { from < length line.now }
    requires begins { begins_word line.now from ≡ true }
    ensures within { result ≤ length line.now }
    ensures after { from < result }
    ensures end { result ≡ from + position_or_len is_white_byte (drop from line.now) }
    ensures word { slice_range line.now from result ≡ word_at line.now from }
{
    from + ink_length(&line[from..])
}

/// Returns how many bytes precede the first white byte.
fn ink_length(rest: &[u8]) -> usize
    ensures { result ≡ position_or_len is_white_byte rest.now }
{
    for (index, byte) in rest.iter().enumerate() {
        if is_white(*byte) {
            return index;
        }
    }
    rest.len()
}

/// Returns the digit that a word names, in either letter case.
fn digit_named(word: &[u8]) -> Option<u8>
    ensures value { result ≡ digit_of word.now }
    ensures small { IfSome result (λ digit. digit < 10) }
{
    if word.len() > LONGEST {
        return None;
    }
    let packed = packed(word);
    for (name, digit) in &NAMES {
        if *name == packed {
            return Some(*digit);
        }
    }
    None
}

/// Packs a short word into a number: 1, and then each byte as a digit to the base 256. The bit of
/// small letters is set in each byte, so that the case of a letter doesn't matter.
fn packed(word: &[u8]) -> u64
    requires { length word.now ≤ 5 }
    ensures { result ≡ number_from_digits_after 256 1 (map (λ b. bit_or b 32) word.now) }
{
    let mut packed: u64 = 1;
    for byte in word {
        packed = packed * 256 + u64::from(*byte | 32);
    }
    packed
}
