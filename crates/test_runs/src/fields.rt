//! Numbers, choices and code from the fields of a row.

use crate::explorers::Start;
use crate::failure::Failure;
use ick_code::{Code, compile};
use ick_source::read_source;
use std::alloc::Global;
use test_rows::Row;

/// Returns the number in a field, or `otherwise` if the row has no such field.
pub fn number(row: &Row, word: &[u8], otherwise: u64) -> Result<u64, Failure> {
    row.number(word, otherwise).ok_or(Failure::Number)
}

/// Returns the number in a field, or `otherwise` if the row has no such field.
pub fn short_number(row: &Row, word: &[u8], otherwise: u32) -> Result<u32, Failure> {
    row.short_number(word, otherwise).ok_or(Failure::Number)
}

/// Returns where the listing of a row starts, and the limit on the steps of its runs.
pub fn start_of(row: &Row) -> Result<Start<'_>, Failure> {
    Ok(Start {
        input: row.field(b"input"),
        limit: short_number(row, b"limit", 10_000)?,
        work: number(row, b"work", 0)?,
        from: row.field(b"from"),
    })
}

/// Returns choices that are given as digits.
pub fn choices(alloc: Global, digits: &[u8]) -> Result<Vec<bool>, Failure> {
    let mut choices = Vec::new(alloc);
    for digit in digits {
        choices.push(*digit == b'1')?;
    }
    Ok(choices)
}

/// Compiles a source.
pub fn code_of<'a>(alloc: Global, source: &'a [u8]) -> Result<Code<'a>, Failure> {
    let Ok(program) = read_source(alloc, source) else {
        return Err(Failure::Source);
    };
    Ok(compile(alloc, &program)?)
}
