//! The answer of each call that a row can name.

use crate::appended::{decimal, growth, quoted};
use crate::bodies::body;
use crate::digits::{digits, white};
use crate::failure::Failure;
use crate::messages::message;
use crate::numerals::{letters, numeral};
use crate::operators::{mingled, selected, unary, width};
use crate::programs::answer_by_program;
use crate::sources::{faults, refusal, statements, stop};
use crate::tape::{tape_byte, tape_number};
use crate::texts::{Text, append_failure};
use ick_bits::NoMemory;
use std::alloc::Global;
use test_rows::{Row, Tally, read_rows};

/// Answers each row of a text. Appends a line for each that differs, and the tally.
pub fn report(alloc: Global, text: &[u8], out: &mut Vec<u8>) -> Result<(), NoMemory> {
    let rows = read_rows(alloc, text)?;
    report_on(alloc, &rows, out)
}

/// Answers each row. Appends a line for each that differs, and the tally.
fn report_on(alloc: Global, rows: &[Row], out: &mut Vec<u8>) -> Result<(), NoMemory> {
    let mut tally = Tally::new();
    for row in rows {
        check(alloc, row, &mut tally, out)?;
    }
    tally.append(out)
}

/// Compares the answer to a row with the text that the row wants.
fn check(alloc: Global, row: &Row, tally: &mut Tally, out: &mut Vec<u8>) -> Result<(), NoMemory> {
    let mut found = Text::new(alloc);
    find(alloc, row, &mut found);
    tally.check(out, row, found.bytes()?)
}

/// Appends the answer to a row to an empty text, or why its call failed.
fn find(alloc: Global, row: &Row, found: &mut Text) {
    if let Err(failure) = whole_answer(alloc, row, found) {
        found.clear();
        append_failure(found, failure);
    }
}

/// Appends the answer to a row, and stops if the text ran out of memory.
fn whole_answer(alloc: Global, row: &Row, out: &mut Text) -> Result<(), Failure> {
    let answered = answer(alloc, row, out);
    match out.bytes() {
        Ok(_) => answered,
        Err(_) => Err(Failure::NoMemory),
    }
}

/// Appends the answer to a row about numbers, or looks for its call among those about texts.
fn answer(alloc: Global, row: &Row, out: &mut Text) -> Result<(), Failure> {
    if row.calls(b"value") {
        width(row, out)
    } else if row.calls(b"mingle") {
        mingled(row, out)
    } else if row.calls(b"select") {
        selected(row, out)
    } else if row.calls(b"unary") {
        unary(row, out)
    } else if row.calls(b"tape out") {
        tape_byte(row, out)
    } else if row.calls(b"tape in") {
        tape_number(row, out)
    } else {
        answer_of_text(alloc, row, out)
    }
}

/// Appends the answer to a row about texts, or looks for its call among those about sources.
fn answer_of_text(alloc: Global, row: &Row, out: &mut Text) -> Result<(), Failure> {
    if row.calls(b"numeral") {
        numeral(row, out)
    } else if row.calls(b"letters") {
        letters(row, out)
    } else if row.calls(b"digits") {
        digits(row, out)
    } else if row.calls(b"white") {
        white(row, out)
    } else if row.calls(b"message") {
        message(alloc, row, out)
    } else if row.calls(b"quoted") {
        quoted(row, out)
    } else if row.calls(b"decimal") {
        decimal(row, out)
    } else if row.calls(b"growth") {
        growth(alloc, out)
    } else {
        answer_of_source(alloc, row, out)
    }
}

/// Appends the answer to a row about a source, or looks for its call among those about programs.
fn answer_of_source(alloc: Global, row: &Row, out: &mut Text) -> Result<(), Failure> {
    if row.calls(b"refusal") {
        refusal(alloc, row, out)
    } else if row.calls(b"faults") {
        faults(alloc, row, out)
    } else if row.calls(b"statements") {
        statements(alloc, row, out)
    } else if row.calls(b"stop") {
        stop(alloc, row, out)
    } else if row.calls(b"body") {
        body(alloc, row, out)
    } else {
        answer_by_program(alloc, row, out)
    }
}
