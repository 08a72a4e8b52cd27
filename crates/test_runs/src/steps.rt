//! The number of steps of a run on each machine.

use crate::failure::Failure;
use crate::fields::short_number;
use crate::machine::Machine;
use ick_bits::append_decimal;
use ick_code::Code;
use std::alloc::Global;
use test_rows::Row;

/// Runs the program of a row on each machine, and appends a line for each.
pub fn steps(alloc: Global, code: &Code<'_>, row: &Row, out: &mut Vec<u8>) -> Result<(), Failure> {
    let limit = short_number(row, b"limit", 1000)?;
    for name in ["copied", "trailed", "live"] {
        append_steps(alloc, code, limit, name, out)?;
    }
    Ok(())
}

/// Runs a program on the machine of a name, for at most `limit` steps. Appends a line that has the
/// name and the number of steps.
pub fn append_steps(
    alloc: Global,
    code: &Code<'_>,
    limit: u32,
    name: &str,
    out: &mut Vec<u8>,
) -> Result<(), Failure> {
    let Some(machine) = Machine::named(name) else {
        return Err(Failure::Machine);
    };
    let steps = machine.run(alloc, code, limit)?;
    out.extend_from_slice(name.as_bytes())?;
    out.push(b' ')?;
    append_decimal(out, u64::from(steps))?;
    Ok(out.push(b'\n')?)
}
