//! Texts of cursors.

use crate::failure::Failure;
use crate::fields::short_number;
use crate::texts::append_choices;
use ick_runs::Cursor;
use std::alloc::Global;
use test_rows::Row;

/// Reads the text of a cursor, and appends its choices in quotes and its text as it is printed.
pub fn cursor(alloc: Global, row: &Row, out: &mut Vec<u8>) -> Result<(), Failure> {
    let limit = short_number(row, b"limit", 100)?;
    let cursor = Cursor::from_text(alloc, row.field(b"text"), limit)?;
    append_cursor(out, &cursor)
}

/// Appends the choices of a cursor in quotes and its text.
fn append_cursor(out: &mut Vec<u8>, cursor: &Cursor) -> Result<(), Failure> {
    out.push(b'"')?;
    append_choices(out, cursor.choices())?;
    out.extend_from_slice(b"\" ")?;
    Ok(cursor.append_text(out)?)
}
