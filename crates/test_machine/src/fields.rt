//! Names and numbers in the fields of a row.

use crate::failure::Failure;
use test_rows::Row;

/// Returns whether a field has this value.
pub fn has(row: &Row, word: &[u8], value: &[u8]) -> bool {
    row.field(word) == value
}

/// Returns the number in a field, or 0 if there is no such field.
pub fn number(row: &Row, word: &[u8]) -> Result<u32, Failure> {
    row.short_number(word, 0).ok_or(Failure::NoNumber)
}
