//! Numbers and values from the fields of a row.

use crate::failure::Failure;
use ick_bits::Value;
use test_rows::{Row, decimal, short_decimal};

/// Returns the number of at most 16 bits that decimal digits write.
fn number_16_of(digits: &[u8]) -> Result<u16, Failure> {
    match u16::try_from(short_decimal(digits).ok_or(Failure::Field)?) {
        Ok(number) => Ok(number),
        Err(_) => Err(Failure::Field),
    }
}

/// Returns the number in a field.
pub fn number(row: &Row, word: &[u8]) -> Result<u64, Failure> {
    decimal(row.field(word)).ok_or(Failure::Field)
}

/// Returns the number of at most 32 bits in a field.
pub fn number_32(row: &Row, word: &[u8]) -> Result<u32, Failure> {
    short_decimal(row.field(word)).ok_or(Failure::Field)
}

/// Returns the number of at most 16 bits in a field.
pub fn number_16(row: &Row, word: &[u8]) -> Result<u16, Failure> {
    number_16_of(row.field(word))
}

/// Returns the byte whose number is in a field.
pub fn byte(row: &Row, word: &[u8]) -> Result<u8, Failure> {
    match u8::try_from(number(row, word)?) {
        Ok(number) => Ok(number),
        Err(_) => Err(Failure::Field),
    }
}

/// Returns the value in a field: a spot before 16 bits, a two-spot before 32.
pub fn value(row: &Row, word: &[u8]) -> Result<Value, Failure> {
    match row.field(word) {
        [b'.', digits @ ..] => Ok(Value::sixteen(number_16_of(digits)?)),
        [b':', digits @ ..] => {
            let number = short_decimal(digits).ok_or(Failure::Field)?;
            Ok(Value::thirty_two(number))
        },
        _ => Err(Failure::Field),
    }
}
