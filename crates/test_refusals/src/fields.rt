//! Numbers, choices, code and cursors from the fields of a row.

use crate::failure::{Call, Failure, Wrong};
use ick_code::{Code, compile};
use ick_runs::{Cursor, RunsError};
use ick_source::{Refusal, read_source};
use ick_syntax::Program;
use std::alloc::Global;
use test_rows::Row;

/// The most choices of a row, each of which is to do the statement.
const CHOICES: &[bool] = &[true; 100];

/// Returns the number in a field, or `otherwise` if the row has no such field.
pub fn number(row: &Row, word: &[u8], otherwise: u32) -> Result<u32, Failure> {
    row.short_number(word, otherwise)
        .ok_or(Failure::Wrong(Wrong::NoNumber))
}

/// Returns the limit on steps of a row, which is 100 if the row names none.
pub fn limit(row: &Row) -> Result<u32, Failure> {
    number(row, b"limit", 100)
}

/// Returns as many choices as a row's field `choices` says, each to do the statement.
pub fn choices(row: &Row) -> Result<&'static [bool], Failure> {
    let count = number(row, b"choices", 0)? as usize;
    Ok(CHOICES.get(..count).unwrap_or(CHOICES))
}

/// Reads the source of a row.
pub fn program_of(alloc: Global, row: &Row) -> Result<Program<'_>, Failure> {
    match read_source(alloc, row.field(b"source")) {
        Ok(program) => Ok(program),
        Err(Refusal::NoMemory) => Err(Failure::Refused(Call::ReadSource)),
        Err(_) => Err(Failure::Wrong(Wrong::OtherRefusal)),
    }
}

/// Compiles the source of a row.
pub fn code_of(alloc: Global, row: &Row) -> Result<Code<'_>, Failure> {
    let program = program_of(alloc, row)?;
    match compile(alloc, &program) {
        Ok(code) => Ok(code),
        Err(_) => Err(Failure::Refused(Call::Compile)),
    }
}

/// Reads the cursor in a row's field `from`. If memory is refused, texts that are no cursor, or
/// that have too many choices, must still be refused for that.
pub fn cursor_of(alloc: Global, row: &Row) -> Result<Cursor, Failure> {
    match Cursor::from_text(alloc, row.field(b"from"), limit(row)?) {
        Ok(cursor) => Ok(cursor),
        Err(RunsError::NoMemory) if is_strict(alloc) => Err(Failure::Refused(Call::FromText)),
        Err(_) => Err(Failure::Wrong(Wrong::OtherRefusal)),
    }
}

/// Returns whether texts are refused that have more than 1,000 choices, or are no cursor.
fn is_strict(alloc: Global) -> bool {
    let many = Cursor::from_text(alloc, b"0*999999999999999999999", 1000);
    let bad = Cursor::from_text(alloc, b"0*999999999999999999999,", 1000);
    matches!(many, Err(RunsError::NoSuchRun)) && matches!(bad, Err(RunsError::BadCursor))
}
