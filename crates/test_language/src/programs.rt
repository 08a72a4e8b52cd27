//! The answer of each call that works on the program of a row's source.

use crate::code::{compiled, compiled_statements, slots};
use crate::failure::Failure;
use crate::sources::{gerunds, kind, listing, politeness};
use crate::texts::Text;
use ick_code::{Code, compile};
use ick_source::read_source;
use ick_syntax::Program;
use std::alloc::Global;
use test_rows::Row;

/// The names of the calls that work on a program or on its code.
const CALLS: [&[u8]; 7] = [
    b"listing",
    b"kind",
    b"gerunds",
    b"politeness",
    b"compile",
    b"code",
    b"slots",
];

/// Whether the call of a row works on a program.
fn works_on_program(row: &Row) -> bool {
    for call in &CALLS {
        if row.calls(call) {
            return true;
        }
    }
    false
}

/// Appends the answer to a row whose call works on the program of its source.
pub fn answer_by_program(alloc: Global, row: &Row, out: &mut Text) -> Result<(), Failure> {
    if !works_on_program(row) {
        return Err(Failure::Call);
    }
    match read_source(alloc, row.field(b"source")) {
        Ok(program) => answer_on_program(alloc, &program, row, out),
        Err(refusal) => Err(Failure::Source(refusal)),
    }
}

/// Appends the answer to a row on its program, or looks for its call among those about code.
fn answer_on_program(
    alloc: Global,
    program: &Program<'_>,
    row: &Row,
    out: &mut Text,
) -> Result<(), Failure> {
    if row.calls(b"listing") {
        listing(program, out)
    } else if row.calls(b"kind") {
        kind(alloc, program, out)
    } else if row.calls(b"gerunds") {
        gerunds(program, out)
    } else if row.calls(b"politeness") {
        politeness(program, out)
    } else {
        answer_by_code(alloc, program, row, out)
    }
}

/// Appends the answer to a row on the code of its program.
fn answer_by_code(
    alloc: Global,
    program: &Program<'_>,
    row: &Row,
    out: &mut Text,
) -> Result<(), Failure> {
    match compile(alloc, program) {
        Ok(code) => answer_on_code(alloc, &code, row, out),
        Err(_) => Err(Failure::NoMemory),
    }
}

/// Appends the answer to a row on its code.
fn answer_on_code(
    alloc: Global,
    code: &Code<'_>,
    row: &Row,
    out: &mut Text,
) -> Result<(), Failure> {
    if row.calls(b"compile") {
        compiled(alloc, code, out)
    } else if row.calls(b"code") {
        compiled_statements(alloc, code, out)
    } else if row.calls(b"slots") {
        slots(code, out)
    } else {
        Err(Failure::Call)
    }
}
