//! Messages of faults.

use crate::failure::Failure;
use crate::fields::number_32;
use crate::texts::Text;
use ick_bits::{Fault, FaultKind};
use std::alloc::Global;
use test_rows::Row;

/// The kinds of faults.
const KINDS: [FaultKind; 20] = [
    FaultKind::Unrecognised,
    FaultKind::MeshTooLarge,
    FaultKind::Impolite,
    FaultKind::Fawning,
    FaultKind::NextDepth,
    FaultKind::NoNextLabel,
    FaultKind::NoAbstainLabel,
    FaultKind::SameLabel,
    FaultKind::LabelRange,
    FaultKind::NameRange,
    FaultKind::ZeroDimension,
    FaultKind::Hyperspace,
    FaultKind::TooWide,
    FaultKind::NothingStashed,
    FaultKind::SixtyFour,
    FaultKind::NoInput,
    FaultKind::NoDigit,
    FaultKind::ResumeZero,
    FaultKind::Rupture,
    FaultKind::OffTheEdge,
];

/// Returns the kind of fault that a field names.
fn kind_named(alloc: Global, row: &Row) -> Result<FaultKind, Failure> {
    for kind in &KINDS {
        if is_named(alloc, *kind, row.field(b"kind"))? {
            return Ok(*kind);
        }
    }
    Err(Failure::Field)
}

/// Whether a kind of fault has this name.
fn is_named(alloc: Global, kind: FaultKind, name: &[u8]) -> Result<bool, Failure> {
    match format!(in alloc; "{kind:?}") {
        Ok(shown) => Ok(shown.as_bytes() == name),
        Err(_) => Err(Failure::NoMemory),
    }
}

/// Appends the number of a kind of fault, and the message of a fault of this kind.
pub fn message(alloc: Global, row: &Row, out: &mut Text) -> Result<(), Failure> {
    let fault = Fault {
        kind: kind_named(alloc, row)?,
        statement: number_32(row, b"statement")?,
        subject: row.field(b"subject"),
    };
    out.append_decimal(u64::from(fault.kind.number()));
    out.append(b": ");
    out.append_message(&fault);
    Ok(())
}
