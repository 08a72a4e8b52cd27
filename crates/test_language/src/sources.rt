//! How sources are cut, listed and refused.

use crate::failure::Failure;
use crate::texts::{Text, append_fault, append_number, append_refusal, append_shown};
use ick_source::{FaultAt, Listed, Refusal, Seen, read_source, read_statements, stop_of};
use ick_syntax::{Body, Program};
use std::alloc::Global;
use test_rows::Row;

/// Appends the listing of a source.
pub fn listing(program: &Program<'_>, out: &mut Text) -> Result<(), Failure> {
    out.append_listing(program);
    Ok(())
}

/// Appends the kind of the one statement of a source.
pub fn kind(alloc: Global, program: &Program<'_>, out: &mut Text) -> Result<(), Failure> {
    let [statement] = program.statements() else {
        return Err(Failure::Statements);
    };
    append_shown(alloc, out, b"", &statement.body.kind());
    Ok(())
}

/// Appends the kinds of statements that the one statement of a source abstains from.
pub fn gerunds(program: &Program<'_>, out: &mut Text) -> Result<(), Failure> {
    let [statement] = program.statements() else {
        return Err(Failure::Statements);
    };
    if let Body::AbstainKinds(gerunds) = &statement.body {
        for gerund in gerunds {
            if !out.is_empty() {
                out.push(b' ');
            }
            out.append(gerund.kind().word());
        }
    }
    Ok(())
}

/// Appends why a source is refused.
pub fn refusal(alloc: Global, row: &Row, out: &mut Text) -> Result<(), Failure> {
    match refusal_of(alloc, row.field(b"source")) {
        Some(refusal) => append_refusal(out, refusal),
        None => out.append(b"not refused"),
    }
    Ok(())
}

/// Returns why a source is refused, if it is.
fn refusal_of(alloc: Global, source: &[u8]) -> Option<Refusal> {
    match read_source(alloc, source) {
        Ok(_) => None,
        Err(refusal) => Some(refusal),
    }
}

/// Appends all faults for which a source is refused.
pub fn faults(alloc: Global, row: &Row, out: &mut Text) -> Result<(), Failure> {
    let listed = listed(alloc, row)?;
    for fault in &listed.faults {
        append_fault_at(out, fault);
    }
    if listed.faults.is_empty() {
        out.append(b"no fault");
    }
    Ok(())
}

/// Appends a kind of fault and the number of its statement.
fn append_fault_at(out: &mut Text, fault: &FaultAt) {
    if !out.is_empty() {
        out.push(b' ');
    }
    append_fault(out, fault.kind);
    append_number(out, b"@", u64::from(fault.number));
}

/// Appends where the reading of the statement stops with which a source begins, and what is wanted
/// there.
pub fn stop(alloc: Global, row: &Row, out: &mut Text) -> Result<(), Failure> {
    let Ok(stop) = stop_of(alloc, row.field(b"source"), 0) else {
        return Err(Failure::NoMemory);
    };
    match stop {
        Some(stop) => {
            let within: &[u8] = if stop.within { b" within: " } else { b": " };
            out.append_decimal(stop.at as u64);
            out.append(within);
            out.append(stop.wanted.text());
        }
        None => out.append(b"no stop"),
    }
    Ok(())
}

/// Appends the statements of a source that may be refused.
pub fn statements(alloc: Global, row: &Row, out: &mut Text) -> Result<(), Failure> {
    let listed = listed(alloc, row)?;
    for seen in &listed.statements {
        append_seen(out, seen);
    }
    Ok(())
}

/// Appends the number, the label and the kind of a statement.
fn append_seen(out: &mut Text, seen: &Seen<'_>) {
    if !out.is_empty() {
        out.append(b"; ");
    }
    out.append_decimal(u64::from(seen.statement.number));
    match seen.statement.label {
        Some(label) => append_number(out, b" ", u64::from(label)),
        None => out.append(b" -"),
    }
    out.push(b' ');
    out.append(seen.statement.body.kind().word());
}

/// Reads the statements of a row's source, and finds its faults.
fn listed<'a>(alloc: Global, row: &'a Row) -> Result<Listed<'a>, Failure> {
    match read_statements(alloc, row.field(b"source")) {
        Ok(listed) => Ok(listed),
        Err(refusal) => Err(Failure::Source(refusal)),
    }
}

/// Appends how many statements a source has, and how many of them are polite.
pub fn politeness(program: &Program<'_>, out: &mut Text) -> Result<(), Failure> {
    out.append_decimal(program.statements().len() as u64);
    append_number(out, b" statements, polite ", u64::from(program.polite()));
    Ok(())
}
