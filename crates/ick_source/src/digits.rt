//! The significant digits of numbers, by which numbers of any size are compared.

ghost use Rattle.std.specs.Prelude.{◌≡◌, ◌≤◌, drop, length};
ghost use Rattle.ick_source.specs.Digits.{significant};
ghost use Rattle.ick_source.specs.Reading.{digits_of};

use crate::bytes::{byte_at, is_digit_byte};

/// Returns all digits at `at`, without the zeros before them. So 0 has no digits.
pub fn significant_at(text: &[u8], at: usize) -> &[u8]
    requires { at ≤ length text.now }
    ensures { result.now ≡ significant (digits_of (drop at text.now)) }
{
    let mut from = at;
    'zeros: while byte_at(text, from) == b'0' {
        from += 1;
    }
    let mut to = from;
    'digits: while is_digit_byte(byte_at(text, to)) {
        to += 1;
    }
    &text[from..to]
}
