//! Whether output has left before the next line is read.

ghost use Rattle.std.specs.Prelude.{[], false};

use crate::failure::Failure;
use crate::texts::append_number;
use ick_code::Code;
use ick_devices::{ByteSink, ByteSource, DeviceFault, SliceSource};
use ick_runs::{Chooser, run_stream};
use std::alloc::Global;
use std::cell::Cell;
use test_rows::Row;

/// A sink that tells how many bytes it has taken.
#[derive(Drop)]
struct CountingSink<'t> {
    taken: &'t Cell<u64>,
}

impl ByteSink for CountingSink<'_> {
    ghost told = { false };

    ghost written = { λ _. [] };

    ghost failed = { λ _. 0 };

    fn failures(&self) -> u64 {
        0
    }

    fn write(&mut self, text: &[u8]) -> Result<usize, DeviceFault> {
        self.taken
            .set(self.taken.get().saturating_add(text.len() as u64));
        Ok(text.len())
    }
}

/// A source that keeps how many bytes the sink had taken when it was first read.
#[derive(Drop)]
struct WatchingSource<'t> {
    rest: SliceSource<'t>,
    taken: &'t Cell<u64>,
    taken_first: Option<u64>,
}

impl ByteSource for WatchingSource<'_> {
    ghost told = { false };

    ghost left = { λ _. [] };

    ghost failed = { λ _. 0 };

    fn failures(&self) -> u64 {
        0
    }

    fn read(&mut self, target: &mut [u8]) -> Result<usize, DeviceFault> {
        if self.taken_first.is_none() {
            self.taken_first = Some(self.taken.get());
        }
        self.rest.read(target)
    }
}

/// Runs the program of a row, and appends how many bytes the writer had taken before the first read
/// and at the end.
pub fn interleaving(
    alloc: Global,
    code: &Code<'_>,
    row: &Row,
    out: &mut Vec<u8>,
) -> Result<(), Failure> {
    let taken = Cell::new(0);
    let mut reader = WatchingSource {
        rest: SliceSource::new(row.field(b"input")),
        taken: &taken,
        taken_first: None,
    };
    let mut writer = CountingSink { taken: &taken };
    let chooser = Chooser::Listed(&[]);
    run_stream(alloc, code, &mut reader, &mut writer, 10, chooser)?;
    append_taken(out, reader.taken_first.unwrap_or(u64::MAX), taken.get())
}

/// Appends how many bytes the writer had taken before the first read and at the end.
fn append_taken(out: &mut Vec<u8>, first: u64, all: u64) -> Result<(), Failure> {
    append_number(out, b"", first)?;
    append_number(out, b" before the first read, ", all)?;
    Ok(out.extend_from_slice(b" at the end")?)
}
