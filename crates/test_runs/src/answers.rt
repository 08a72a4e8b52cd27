//! The answer of each call that a row can name.

use crate::cursors::cursor;
use crate::cut_short::cut_short;
use crate::failure::Failure;
use crate::fields::code_of;
use crate::generated::generated;
use crate::interleaving::interleaving;
use crate::listings::runs;
use crate::many::many;
use crate::seeds::{draw, later_draws, listed_draws, streamed_draws, words};
use crate::steps::steps;
use crate::streams::stream;
use crate::texts::append_failure;
use crate::whole::{first, write};
use ick_bits::NoMemory;
use ick_code::Code;
use std::alloc::Global;
use test_rows::{Row, Tally, read_rows};

/// Answers each row of a text. Appends a line for each that differs, and the tally.
pub fn report(alloc: Global, text: &[u8], out: &mut Vec<u8>) -> Result<(), NoMemory> {
    let rows = read_rows(alloc, text)?;
    let mut tally = Tally::new();
    for row in &rows {
        check(alloc, row, &mut tally, out)?;
    }
    tally.append(out)
}

/// Compares the answer to a row with the text that the row wants.
fn check(alloc: Global, row: &Row, tally: &mut Tally, out: &mut Vec<u8>) -> Result<(), NoMemory> {
    let mut found = Vec::new(alloc);
    if let Err(failure) = answer(alloc, row, &mut found) {
        found.clear();
        append_failure(alloc, &mut found, failure)?;
    }
    tally.check(out, row, &found)
}

/// Appends the answer to a row.
fn answer(alloc: Global, row: &Row, out: &mut Vec<u8>) -> Result<(), Failure> {
    if row.calls(b"cursor") {
        cursor(alloc, row, out)
    } else if row.calls(b"draw") {
        draw(row, out)
    } else if row.calls(b"words") {
        words(alloc, row, out)
    } else if row.calls(b"generated") {
        generated(alloc, row, out)
    } else if row.calls(b"first") {
        first(alloc, row, out)
    } else if row.calls(b"write") {
        write(alloc, row, out)
    } else {
        answer_by_code(alloc, row, out)
    }
}

/// Appends the answer to a row that has a source.
fn answer_by_code(alloc: Global, row: &Row, out: &mut Vec<u8>) -> Result<(), Failure> {
    let code = code_of(alloc, row.field(b"source"))?;
    answer_on(alloc, &code, row, out)
}

/// Appends the answer to a row on its source's code.
fn answer_on(alloc: Global, code: &Code<'_>, row: &Row, out: &mut Vec<u8>) -> Result<(), Failure> {
    if row.calls(b"runs") || row.calls(b"counts") {
        runs(alloc, code, row, out)
    } else if row.calls(b"many") {
        many(alloc, code, row, out)
    } else if row.calls(b"cut short") {
        cut_short(alloc, code, row, out)
    } else {
        answer_on_one(alloc, code, row, out)
    }
}

/// Appends the answer to a row that makes one run at a time of its source's code.
fn answer_on_one(
    alloc: Global,
    code: &Code<'_>,
    row: &Row,
    out: &mut Vec<u8>,
) -> Result<(), Failure> {
    if row.calls(b"stream") {
        stream(alloc, code, row, out)
    } else if row.calls(b"interleaving") {
        interleaving(alloc, code, row, out)
    } else if row.calls(b"steps") {
        steps(alloc, code, row, out)
    } else if row.calls(b"later draws") {
        later_draws(alloc, code, row, out)
    } else if row.calls(b"listed draws") {
        listed_draws(alloc, code, row, out)
    } else if row.calls(b"streamed draws") {
        streamed_draws(alloc, code, row, out)
    } else {
        Err(Failure::Call)
    }
}
