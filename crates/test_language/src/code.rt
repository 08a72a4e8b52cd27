//! The operations that programs are compiled to.

ghost use Rattle.std.specs.Prelude.{◌≤◌, length};
ghost use Rattle.ick_code.specs.Compiled.{code_program};

use crate::failure::Failure;
use crate::texts::{Text, append_name, append_number, append_shown};
use ick_code::{Code, Op};
use std::alloc::Global;

/// Appends a colon, and operations with commas between them.
fn append_ops(alloc: Global, out: &mut Text, ops: &[Op]) {
    for (index, op) in ops.iter().enumerate() {
        out.push(if index == 0 { b':' } else { b',' });
        append_shown(alloc, out, b" ", op);
    }
}

/// Appends how many operands the one statement of a source keeps at most, and its operations.
pub fn compiled(alloc: Global, code: &Code<'_>, out: &mut Text) -> Result<(), Failure> {
    if code.count() != 1 {
        return Err(Failure::Statements);
    }
    append_number(out, b"operands ", code.operands() as u64);
    append_ops(alloc, out, code.ops(1));
    Ok(())
}

/// Appends a line for each statement of a source: its number, chance, kind, text and operations.
pub fn compiled_statements(alloc: Global, code: &Code<'_>, out: &mut Text) -> Result<(), Failure> {
    for number in 1..=code.count() {
        append_statement(alloc, out, code, number);
    }
    Ok(())
}

/// Appends the line of a statement.
fn append_statement(alloc: Global, out: &mut Text, code: &Code<'_>, number: u32)
    requires first { 1 ≤ number }
    requires last { number ≤ length (code_program code.now) }
{
    out.append_decimal(u64::from(number));
    append_number(out, b" chance ", u64::from(code.chance(number)));
    if code.abstained(number) {
        out.append(b" abstained");
    }
    append_shown(alloc, out, b" ", &code.kind(number));
    out.push(b' ');
    out.append_quoted(code.text(number));
    append_ops(alloc, out, code.ops(number));
    out.push(b'\n');
}

/// Appends the variables and the arrays of a source in the order of their slots.
pub fn slots(code: &Code<'_>, out: &mut Text) -> Result<(), Failure> {
    out.append(b"scalars");
    for slot in 0..code.scalars() {
        append_name(out, b" ", &code.scalar(slot));
    }
    out.append(b" arrays");
    for slot in 0..code.arrays() {
        append_name(out, b" ", &code.array(slot));
    }
    Ok(())
}
