//! Answers as text.

use crate::failure::Failure;
use ick_bits::{FaultKind, NoMemory, append_decimal};
use ick_machine::EndKind;
use ick_runs::RunsError;
use std::alloc::Global;

/// Appends why a call failed.
pub fn append_failure(alloc: Global, out: &mut Vec<u8>, failure: Failure) -> Result<(), NoMemory> {
    match failure {
        Failure::Runs(error) => append_error(alloc, out, error),
        Failure::Source => Ok(out.extend_from_slice(b"the source is refused")?),
        Failure::Number => Ok(out.extend_from_slice(b"a field is no number")?),
        Failure::Call => Ok(out.extend_from_slice(b"no such call")?),
        Failure::Machine => Ok(out.extend_from_slice(b"no such machine")?),
    }
}

/// Appends the refusal of a call of the crate.
pub fn append_error(alloc: Global, out: &mut Vec<u8>, error: RunsError) -> Result<(), NoMemory> {
    let text = format!(in alloc; "{error}")?;
    Ok(out.extend_from_slice(text.as_bytes())?)
}

/// Appends choices as digits.
pub fn append_choices(out: &mut Vec<u8>, choices: &[bool]) -> Result<(), NoMemory> {
    for choice in choices {
        out.push(if *choice { b'1' } else { b'0' })?;
    }
    Ok(())
}

/// Appends a number with a text before it.
pub fn append_number(out: &mut Vec<u8>, before: &[u8], number: u64) -> Result<(), NoMemory> {
    out.extend_from_slice(before)?;
    append_decimal(out, number)
}

/// Appends the name of an end.
pub fn append_end_name(out: &mut Vec<u8>, end: EndKind) -> Result<(), NoMemory> {
    match end {
        EndKind::GiveUp => Ok(out.extend_from_slice(b"GIVE-UP")?),
        EndKind::Limit => Ok(out.extend_from_slice(b"LIMIT")?),
        EndKind::Wants => Ok(out.extend_from_slice(b"WANTS")?),
        EndKind::Fault(kind, statement) => append_fault(out, kind, statement),
    }
}

/// Appends the number of a fault and that of its statement.
fn append_fault(out: &mut Vec<u8>, kind: FaultKind, statement: u32) -> Result<(), NoMemory> {
    append_number(out, b"E", u64::from(kind.number()))?;
    append_number(out, b"@", u64::from(statement))
}
