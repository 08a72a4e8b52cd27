//! Texts in double quotes, decimal numbers, and growth that is refused.

use crate::failure::Failure;
use crate::fields::number;
use crate::texts::{Text, append_number};
use ick_bits::{
    Fault, FaultKind, NoMemory, append_decimal, append_message, append_numeral, append_quoted,
};
use std::alloc::Global;
use test_rows::Row;

/// Appends a text in double quotes.
pub fn quoted(row: &Row, out: &mut Text) -> Result<(), Failure> {
    out.append_quoted(row.field(b"text"));
    Ok(())
}

/// Appends a text with a decimal number behind it.
pub fn decimal(row: &Row, out: &mut Text) -> Result<(), Failure> {
    append_number(out, row.field(b"before"), number(row, b"number")?);
    Ok(())
}

/// Appends one of four texts.
fn append_turn(out: &mut Vec<u8>, turn: u32) -> Result<(), NoMemory> {
    let fault = Fault {
        kind: FaultKind::Rupture,
        statement: 9,
        subject: b"",
    };
    match turn % 4 {
        0 => append_quoted(out, b"DO GIVE UP"),
        1 => append_message(out, &fault),
        2 => append_numeral(out, 3888888888),
        _ => append_decimal(out, 18446744073709551615),
    }
}

/// Appends whether a text that could not grow stayed as it was. `rt try --fail-alloc N` makes a
/// growth fail: later calls succeed.
pub fn growth(alloc: Global, out: &mut Text) -> Result<(), Failure> {
    let mut grown = Vec::new(alloc);
    out.append(grow(&mut grown));
    Ok(())
}

/// Appends twelve texts, and says whether a text that could not grow stayed as it was.
fn grow(grown: &mut Vec<u8>) -> &'static [u8] {
    for turn in 0..12 {
        let before = grown.len();
        if append_turn(grown, turn).is_err() && grown.len() != before {
            return b"changed by a call that failed";
        }
    }
    if grown.is_empty() {
        return b"nothing was appended";
    }
    b"unchanged by calls that failed"
}
