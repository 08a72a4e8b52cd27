//! Texts that are read and written whole.

ghost use Rattle.std.specs.Prelude.{◌≤◌, length};

use crate::devices::WornSink;
use crate::failure::Failure;
use crate::fields::number;
use crate::texts::append_number;
use ick_bits::append_quoted;
use ick_devices::{ByteSink, ReadFault, SliceSource, VecSink, read_first, write_whole};
use ick_runs::RunsError;
use std::alloc::Global;
use test_rows::Row;

/// Reads the first bytes of a row's text and writes them to memory. Appends what was written, what
/// was left, and how many writes failed.
pub fn first(alloc: Global, row: &Row, out: &mut Vec<u8>) -> Result<(), Failure> {
    let mut source = SliceSource::new(row.field(b"text"));
    let front = front_of(alloc, &mut source, number(row, b"most", 0)? as usize)?;
    let mut sink = VecSink::new(alloc);
    let is_refused = write_whole(&mut sink, &front).is_err();
    append_first(out, &sink, source.left(), is_refused)
}

/// Reads the first bytes of a source.
fn front_of(alloc: Global, source: &mut SliceSource<'_>, most: usize) -> Result<Vec<u8>, Failure> {
    match read_first(alloc, source, most) {
        Ok(front) => Ok(front),
        Err(ReadFault::NoMemory) => Err(Failure::Runs(RunsError::NoMemory)),
        Err(ReadFault::Failed) => Err(Failure::Runs(RunsError::Read)),
    }
}

/// Appends what was written, what was left, and how many writes failed.
fn append_first(
    out: &mut Vec<u8>,
    sink: &VecSink,
    left: &[u8],
    is_refused: bool,
) -> Result<(), Failure> {
    append_quoted(out, sink.bytes())?;
    out.extend_from_slice(b", left ")?;
    append_quoted(out, left)?;
    append_number(out, b", failed ", sink.failures())?;
    if is_refused {
        out.extend_from_slice(b", refused")?;
    }
    Ok(())
}

/// Writes a row's text to sinks that take from no byte of it to all. Appends how many writes left
/// just the bytes that had room, and failed once if these were not all.
pub fn write(alloc: Global, row: &Row, out: &mut Vec<u8>) -> Result<(), Failure> {
    let text = row.field(b"text");
    let mut right = 0u64;
    for room in 0..=text.len() {
        if is_written(alloc, text, room) {
            right = right.saturating_add(1);
        }
    }
    Ok(append_number(out, b"right ", right)?)
}

/// Whether a write to a sink with room for so many bytes of a text leaves just these, and fails
/// once if these are not all.
fn is_written(alloc: Global, text: &[u8], room: usize) -> bool
    requires { room ≤ length text.now }
{
    let mut sink = WornSink {
        bytes: Vec::new(alloc),
        room: room as u64,
        failures: 0,
    };
    let is_failed = write_whole(&mut sink, text).is_err();
    let is_short = room < text.len();
    let is_front = sink.bytes.as_slice() == &text[..room];
    is_front && is_failed == is_short && sink.failures == u64::from(is_short)
}
