//! Decimal numbers in the fields of a row.

use crate::rows::Row;

/// Returns the number that decimal digits write. Returns `None` if the text is empty, has another
/// byte, or writes a number of more than 64 bits.
pub fn decimal(text: &[u8]) -> Option<u64> {
    if text.is_empty() {
        return None;
    }
    let mut number = 0u64;
    for byte in text {
        if !byte.is_ascii_digit() {
            return None;
        }
        let digit = u64::from(byte.wrapping_sub(b'0'));
        number = number.checked_mul(10)?.checked_add(digit)?;
    }
    Some(number)
}

/// Returns the number of at most 32 bits that decimal digits write, or `None`.
pub fn short_decimal(text: &[u8]) -> Option<u32> {
    u32::try_from(decimal(text)?).ok()
}

impl Row {
    /// Returns the number in a field, or `otherwise` if the row has no such field, or `None` if the
    /// field is no number.
    pub fn number(&self, word: &[u8], otherwise: u64) -> Option<u64> {
        match self.field(word) {
            b"" => Some(otherwise),
            text => decimal(text),
        }
    }

    /// Returns the number of at most 32 bits in a field, or `otherwise` if the row has no such
    /// field, or `None` if the field is no such number.
    pub fn short_number(&self, word: &[u8], otherwise: u32) -> Option<u32> {
        match self.field(word) {
            b"" => Some(otherwise),
            text => short_decimal(text),
        }
    }
}
