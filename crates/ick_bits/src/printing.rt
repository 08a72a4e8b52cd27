//! The printed form of a numeral: a line of bars and a line of letters.

ghost use Rattle.std.specs.Prelude.{◌≡◌, ◌≤◌, ◌<◌, ◌++◌, ◌+◌, length, map, take};
ghost use Rattle.std.specs.Prelude.{OnOk, OnErr, vec_len, vec_capacity};
ghost use Rattle.std.specs.Char.{digit_value};
ghost use Rattle.std.specs.Str.Parse.{AllDigits};
ghost use Rattle.ick_bits.specs.Numeral.{numeral_of, symbols_of, printed, bar_line, letter_byte};

use crate::memory::NoMemory;
use crate::rows::{inked_count, letter_count, row_of_bars, row_of_letters};
use itoa::Buffer;

/// The most bytes that both lines of a numeral take, written four at a time. A number has at most
/// ten digits.
const NUMERAL_BYTES: usize = 82;

/// Appends the numeral of `number` to `out` as two lines, each ended by byte 10 (Revised Manual,
/// 4.4.13).
///
/// The first line has `_` over each barred letter and a space over each other letter, without
/// spaces at its end. The second line has the letters. Zero, which has no letter, is a lone bar
/// over an empty line (this profile).
///
/// Returns `NoMemory` only if `out` has no room for both lines and cannot grow. `out` is then
/// unchanged.
pub fn append_numeral(out: &mut Vec<u8>, number: u32) -> Result<(), NoMemory>
    ensures ok { OnOk result (out.new.items ≡ out.old.items ++ printed (numeral_of number)) }
    ensures err { OnErr result (out.new.items ≡ out.old.items) }
    ensures full { let text = printed (numeral_of number) in
        OnErr result (vec_capacity out.old < vec_len out.old + length text) }
    ensures capacity { vec_capacity out.old ≤ vec_capacity out.new }
{
    let mut text = [0; NUMERAL_BYTES];
    let end = write_lines(&mut text, number);
    out.extend_from_slice(&text[..end])?;
    Ok(())
}

/// Writes both lines of the numeral of a number, and returns their end.
fn write_lines(text: &mut [u8; NUMERAL_BYTES], number: u32) -> usize
    ensures lines { take result text.new ≡ printed (numeral_of number) }
    ensures within { result ≤ 82 }
{
    if number == 0 {
        text[..3].copy_from_slice(b"_\n\n");
        return 3;
    }
    let mut buffer = Buffer::new();
    let digits = buffer.format(number).as_bytes();
    let inked = write_bars(text, digits);
    text[inked] = b'\n';
    let end = write_letters(text, inked + 1, digits);
    text[end] = b'\n';
    end + 1
}

/// Writes the line of bars of a number's digits, and returns its end.
fn write_bars(text: &mut [u8; NUMERAL_BYTES], digits: &[u8]) -> usize
    requires digits { AllDigits 10 digits.now }
    requires few { length digits.now ≤ 10 }
    ensures bars { take result text.new ≡ bar_line (symbols_of (map digit_value digits.now)) }
    ensures within { result ≤ 40 }
{
    let mut end = 0;
    let mut inked = 0;
    for index in 0..digits.len().saturating_sub(3) {
        let place = digits.len() - 1 - index;
        let digit = usize::from(digits[index] - b'0');
        write_row(text, end, &row_of_bars(place, digit));
        let count = inked_count(place, digit);
        if count > 0 {
            inked = end + count;
        }
        end += letter_count(digit);
    }
    inked
}

/// Writes the letters of a number's digits from `start` on, and returns their end.
fn write_letters(text: &mut [u8; NUMERAL_BYTES], start: usize, digits: &[u8]) -> usize
    requires digits { AllDigits 10 digits.now }
    requires few { length digits.now ≤ 10 }
    requires start { start ≤ 41 }
    ensures letters { take result text.new
        ≡ take start text.old ++ map letter_byte (symbols_of (map digit_value digits.now)) }
    ensures within { result ≤ start + 40 }
{
    let mut end = start;
    for (index, digit) in digits.iter().enumerate() {
        let digit = usize::from(*digit - b'0');
        write_row(text, end, &row_of_letters(digits.len() - 1 - index, digit));
        end += letter_count(digit);
    }
    end
}

/// Overwrites the four bytes from a position on.
fn write_row(text: &mut [u8; NUMERAL_BYTES], at: usize, row: &[u8; 4])
    requires { at ≤ 77 }
    ensures { take (at + 4) text.new ≡ take at text.old ++ row.now }
{
    text[at..at + 4].copy_from_slice(row);
}
