//! Bytes in room that is taken once.

ghost use Rattle.std.specs.Prelude.{[], false};

use ick_bits::{append_decimal, append_quoted};
use ick_devices::{ByteSink, DeviceFault};
use std::alloc::{AllocError, Global};
use test_rows::{Row, Tally};

/// How many bytes a buffer has room for. No row needs more.
const ROOM: usize = 65_536;

/// Bytes in room that is taken once, so that adding to them takes no memory. Bytes for which no
/// room is left may be lost.
#[derive(Drop)]
pub struct Buffer {
    bytes: Vec<u8>,
}

impl Buffer {
    /// Takes the room of an empty buffer.
    pub fn new(alloc: Global) -> Result<Buffer, AllocError> {
        let bytes = Vec::with_capacity(alloc, ROOM)?;
        Ok(Buffer { bytes })
    }

    /// Returns the bytes.
    pub fn bytes(&self) -> &[u8] {
        self.bytes.as_slice()
    }

    /// Removes all bytes.
    pub fn clear(&mut self) {
        self.bytes.clear();
    }

    /// Adds a text.
    pub fn say(&mut self, text: &[u8]) {
        let _ = self.bytes.extend_from_slice(text);
    }

    /// Adds a number and, right behind it, a text.
    pub fn count(&mut self, number: u64, text: &[u8]) {
        let _ = append_decimal(&mut self.bytes, number);
        let _ = self.bytes.extend_from_slice(text);
    }

    /// Adds a text in quotes and, right behind it, a space.
    pub fn quote(&mut self, text: &[u8]) {
        let _ = append_quoted(&mut self.bytes, text);
        let _ = self.bytes.push(b' ');
    }

    /// Adds a row's name if the answer is the one that the row wants, and else a line that says how
    /// it differs. The buffer must be empty.
    pub fn say_row(&mut self, tally: &mut Tally, row: &Row, answer: &[u8]) {
        let _ = tally.check(&mut self.bytes, row, answer);
        if self.bytes.is_empty() {
            self.say(row.name());
            self.say(b"\n");
        }
    }

    /// Adds how many rows hold, and how many do not.
    pub fn say_tally(&mut self, tally: &Tally) {
        let _ = tally.append(&mut self.bytes);
    }
}

impl ByteSink for Buffer {
    ghost told = { false };

    ghost written = { λ _. [] };

    ghost failed = { λ _. 0 };

    fn failures(&self) -> u64 {
        0
    }

    fn write(&mut self, text: &[u8]) -> Result<usize, DeviceFault> {
        self.say(text);
        Ok(text.len())
    }
}
