//! Ends of runs, and choices, as text.

use crate::buffer::Buffer;
use ick_machine::{End, EndKind};

/// Adds `GIVE-UP`, `LIMIT`, `WANTS`, or a fault as `E436@8`, and a space.
pub fn say_kind(out: &mut Buffer, end: EndKind) {
    match end {
        EndKind::GiveUp => out.say(b"GIVE-UP "),
        EndKind::Limit => out.say(b"LIMIT "),
        EndKind::Wants => out.say(b"WANTS "),
        EndKind::Fault(kind, statement) => {
            out.say(b"E");
            out.count(u64::from(kind.number()), b"@");
            out.count(u64::from(statement), b" ");
        }
    }
}

/// Adds an end, and a space.
pub fn say_end(out: &mut Buffer, end: End<'_>) {
    match end {
        End::GiveUp => say_kind(out, EndKind::GiveUp),
        End::Limit => say_kind(out, EndKind::Limit),
        End::Fault(fault) => say_kind(out, EndKind::Fault(fault.kind, fault.statement)),
    }
}

/// Adds choices as digits, and a space.
pub fn say_choices(out: &mut Buffer, choices: &[bool]) {
    for choice in choices {
        out.say(if *choice { b"1" } else { b"0" });
    }
    out.say(b" ");
}
