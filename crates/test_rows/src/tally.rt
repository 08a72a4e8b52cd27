//! How many rows hold.

use crate::rows::Row;
use ick_bits::{NoMemory, append_decimal, append_quoted};

/// How many rows passed and how many failed.
#[derive(Drop)]
pub struct Tally {
    passed: u64,
    failed: u64,
}

impl Tally {
    /// Returns a tally of no rows.
    pub fn new() -> Tally {
        Tally {
            passed: 0,
            failed: 0,
        }
    }

    /// Counts a row, which passes if `got` is its field `wanted`. Else it appends a line that names
    /// the row, what is wanted and what came.
    pub fn check(&mut self, out: &mut Vec<u8>, row: &Row, got: &[u8]) -> Result<(), NoMemory> {
        let wanted = row.field(b"wanted");
        if wanted == got {
            self.passed = self.passed.saturating_add(1);
            return Ok(());
        }
        self.failed = self.failed.saturating_add(1);
        out.extend_from_slice(row.name())?;
        out.extend_from_slice(b": wanted ")?;
        append_quoted(out, wanted)?;
        out.extend_from_slice(b", got ")?;
        append_quoted(out, got)?;
        out.push(b'\n')?;
        Ok(())
    }

    /// Appends the line `N passed, M failed`.
    pub fn append(&self, out: &mut Vec<u8>) -> Result<(), NoMemory> {
        append_decimal(out, self.passed)?;
        out.extend_from_slice(b" passed, ")?;
        append_decimal(out, self.failed)?;
        out.extend_from_slice(b" failed\n")?;
        Ok(())
    }
}
