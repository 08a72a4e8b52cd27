//! Bytes as arrays hold them.

use crate::failure::Failure;
use crate::fields::{byte, number_16};
use crate::texts::{Text, append_number};
use ick_bits::{tape_in, tape_out};
use test_rows::Row;

/// Appends the byte that is last after a number is read out, and the byte that is written for it.
pub fn tape_byte(row: &Row, out: &mut Text) -> Result<(), Failure> {
    let (last, written) = tape_out(byte(row, b"last")?, number_16(row, b"number")?);
    out.append_decimal(u64::from(last));
    append_number(out, b" ", u64::from(written));
    Ok(())
}

/// Appends the number that an array gets for a byte that is read.
pub fn tape_number(row: &Row, out: &mut Text) -> Result<(), Failure> {
    let number = tape_in(byte(row, b"last")?, byte(row, b"byte")?);
    out.append_decimal(u64::from(number));
    Ok(())
}
