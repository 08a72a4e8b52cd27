//! Mingle, select and the unary operators.

use crate::failure::Failure;
use crate::fields::value;
use crate::texts::{Text, append_fault, append_value};
use ick_bits::{mingle, select, unary_and, unary_or, unary_xor};
use test_rows::Row;

/// Appends the text of a value, from its width and its number.
pub fn width(row: &Row, out: &mut Text) -> Result<(), Failure> {
    append_value(out, value(row, b"value")?);
    Ok(())
}

/// Appends `left $ right`, or the fault of it.
pub fn mingled(row: &Row, out: &mut Text) -> Result<(), Failure> {
    match mingle(value(row, b"left")?, value(row, b"right")?) {
        Ok(mingled) => append_value(out, mingled),
        Err(kind) => append_fault(out, kind),
    }
    Ok(())
}

/// Appends `left ~ right`.
pub fn selected(row: &Row, out: &mut Text) -> Result<(), Failure> {
    let selected = select(value(row, b"left")?, value(row, b"right")?);
    append_value(out, selected);
    Ok(())
}

/// Appends what the three unary operators make of a value.
pub fn unary(row: &Row, out: &mut Text) -> Result<(), Failure> {
    let value = value(row, b"value")?;
    out.append(b"& ");
    append_value(out, unary_and(value));
    out.append(b" V ");
    append_value(out, unary_or(value));
    out.append(b" ? ");
    append_value(out, unary_xor(value));
    Ok(())
}
