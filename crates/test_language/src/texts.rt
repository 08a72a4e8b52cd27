//! The text of an answer, and the numbers, values, names, faults and stops in it.

use crate::failure::Failure;
use ick_bits::{
    Fault, FaultKind, NoMemory, Value, Width, append_decimal, append_message, append_numeral,
    append_quoted,
};
use ick_source::{Refusal, append_listing};
use ick_syntax::{Name, NameKind, Program};
use std::alloc::Global;
use std::fmt::Debug;

/// A text that others append to. It remembers whether it ran out of memory, so that only those who
/// read it have to ask.
#[derive(Drop)]
pub struct Text {
    bytes: Vec<u8>,
    is_cut: bool,
}

impl Text {
    /// Returns an empty text.
    pub fn new(alloc: Global) -> Text {
        Text {
            bytes: Vec::new(alloc),
            is_cut: false,
        }
    }

    /// Returns the bytes of the text, unless it ran out of memory.
    pub fn bytes(&self) -> Result<&[u8], NoMemory> {
        if self.is_cut {
            return Err(NoMemory);
        }
        Ok(self.bytes.as_slice())
    }

    /// Returns whether the text has no bytes.
    pub fn is_empty(&self) -> bool {
        self.bytes.is_empty()
    }

    /// Makes the text empty, and forgets whether it ran out of memory.
    pub fn clear(&mut self) {
        self.bytes.clear();
        self.is_cut = false;
    }

    /// Appends a byte.
    pub fn push(&mut self, byte: u8) {
        let is_cut = self.bytes.push(byte).is_err();
        self.note(is_cut);
    }

    /// Appends bytes.
    pub fn append(&mut self, bytes: &[u8]) {
        let is_cut = self.bytes.extend_from_slice(bytes).is_err();
        self.note(is_cut);
    }

    /// Appends a decimal number.
    pub fn append_decimal(&mut self, number: u64) {
        let is_cut = append_decimal(&mut self.bytes, number).is_err();
        self.note(is_cut);
    }

    /// Appends the two lines of a numeral.
    pub fn append_numeral(&mut self, number: u32) {
        let is_cut = append_numeral(&mut self.bytes, number).is_err();
        self.note(is_cut);
    }

    /// Appends bytes in double quotes.
    pub fn append_quoted(&mut self, bytes: &[u8]) {
        let is_cut = append_quoted(&mut self.bytes, bytes).is_err();
        self.note(is_cut);
    }

    /// Appends the message of a fault.
    pub fn append_message(&mut self, fault: &Fault<'_>) {
        let is_cut = append_message(&mut self.bytes, fault).is_err();
        self.note(is_cut);
    }

    /// Appends the listing of a program.
    pub fn append_listing(&mut self, program: &Program<'_>) {
        let is_cut = append_listing(&mut self.bytes, program).is_err();
        self.note(is_cut);
    }

    /// Remembers whether the text ran out of memory.
    fn note(&mut self, is_cut: bool) {
        self.is_cut = self.is_cut || is_cut;
    }
}

/// Appends why a call failed.
pub fn append_failure(out: &mut Text, failure: Failure) {
    match failure {
        Failure::NoMemory => out.append(b"out of memory"),
        Failure::Source(refusal) => append_refusal(out, refusal),
        Failure::Statements => out.append(b"another number of statements"),
        Failure::Field => out.append(b"a field is not as the call wants it"),
        Failure::Call => out.append(b"no such call"),
    }
}

/// Appends why a source is refused: a fault and its statement, or another reason.
pub fn append_refusal(out: &mut Text, refusal: Refusal) {
    match refusal {
        Refusal::Fault(kind, statement) => {
            append_fault(out, kind);
            append_number(out, b"@", u64::from(statement));
        }
        Refusal::TooLong => out.append(b"too long"),
        Refusal::NoMemory => out.append(b"out of memory"),
    }
}

/// Appends the number of a fault.
pub fn append_fault(out: &mut Text, kind: FaultKind) {
    append_number(out, b"E", u64::from(kind.number()));
}

/// Appends a number with a text before it.
pub fn append_number(out: &mut Text, before: &[u8], number: u64) {
    out.append(before);
    out.append_decimal(number);
}

/// Appends a value: a spot before 16 bits, a two-spot before 32.
pub fn append_value(out: &mut Text, value: Value) {
    let spot: &[u8] = match value.width() {
        Width::Sixteen => b".",
        Width::ThirtyTwo => b":",
    };
    append_number(out, spot, u64::from(value.number()));
}

/// Appends the name of a variable or an array, with a text before it.
pub fn append_name(out: &mut Text, before: &[u8], name: &Name) {
    let spot: &[u8] = match name.kind {
        NameKind::Onespot => b".",
        NameKind::Twospot => b":",
        NameKind::Tail => b",",
        NameKind::Hybrid => b";",
    };
    out.append(before);
    append_number(out, spot, u64::from(name.number));
}

/// Appends how a value is shown, with a text before it.
pub fn append_shown<T: Debug>(alloc: Global, out: &mut Text, before: &[u8], value: &T) {
    out.append(before);
    match format!(in alloc; "{value:?}") {
        Ok(shown) => out.append(shown.as_bytes()),
        Err(_) => out.note(true),
    }
}
