//! Lines of digit names, and white bytes.

use crate::failure::Failure;
use crate::texts::{Text, append_number};
use ick_bits::{DigitFault, digits_value, is_white};
use test_rows::Row;

/// Appends the number of a line of digit names, or why it has none.
pub fn digits(row: &Row, out: &mut Text) -> Result<(), Failure> {
    match digits_value(row.field(b"line")) {
        Ok(number) => out.append_decimal(u64::from(number)),
        Err(DigitFault::TooLarge) => out.append(b"too large"),
        Err(DigitFault::Word { from, to }) => {
            append_number(out, b"no digit from ", from as u64);
            append_number(out, b" to ", to as u64);
        }
    }
    Ok(())
}

/// Appends `W` for each white byte and `-` for each other byte.
pub fn white(row: &Row, out: &mut Text) -> Result<(), Failure> {
    for byte in row.field(b"bytes") {
        out.push(if is_white(*byte) { b'W' } else { b'-' });
    }
    Ok(())
}
