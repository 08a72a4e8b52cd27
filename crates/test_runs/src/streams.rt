//! Runs whose input and output are streams.

ghost use Rattle.std.specs.Prelude.{◌≡◌};

use crate::devices::{WornSink, WornSource};
use crate::failure::Failure;
use crate::fields::{choices, number, short_number};
use crate::texts::{append_choices, append_end_name, append_error, append_number};
use ick_bits::{NoMemory, append_quoted};
use ick_code::Code;
use ick_runs::{Chooser, RunsError, Streamed, run_stream};
use std::alloc::Global;
use test_rows::Row;

/// Appends how a run came out: its end, its message if it has one, its steps and its choices.
fn append_streamed(out: &mut Vec<u8>, streamed: &Streamed) -> Result<(), NoMemory> {
    append_end_name(out, streamed.end)?;
    append_message(out, &streamed.message)?;
    append_number(out, b" after ", u64::from(streamed.steps))?;
    out.extend_from_slice(b" steps by \"")?;
    append_choices(out, &streamed.choices)?;
    Ok(out.push(b'"')?)
}

/// Appends a message in quotes, unless it is empty.
fn append_message(out: &mut Vec<u8>, message: &[u8]) -> Result<(), NoMemory> {
    if message.is_empty() {
        return Ok(());
    }
    out.push(b' ')?;
    append_quoted(out, message)
}

/// Appends what a run wrote and what it left of its input.
fn append_devices(
    out: &mut Vec<u8>,
    reader: &WornSource<'_>,
    writer: &WornSink,
) -> Result<(), NoMemory> {
    out.extend_from_slice(b", wrote ")?;
    append_quoted(out, &writer.bytes)?;
    out.extend_from_slice(b", left ")?;
    append_quoted(out, reader.rest)?;
    append_number(out, b", failed ", reader.failures)?;
    append_number(out, b" and ", writer.failures)
}

/// Runs the program of a row over a reader that fails after `reads` reads and a writer that fails
/// after `room` bytes, or that never fail.
pub fn stream(alloc: Global, code: &Code<'_>, row: &Row, out: &mut Vec<u8>) -> Result<(), Failure> {
    let mut reader = WornSource {
        rest: row.field(b"input"),
        good: number(row, b"reads", u64::MAX)?,
        failures: 0,
    };
    let mut writer = WornSink {
        bytes: Vec::new(alloc),
        room: number(row, b"room", u64::MAX)?,
        failures: 0,
    };
    stream_over(alloc, code, row, &mut reader, &mut writer, out)?;
    Ok(append_devices(out, &reader, &writer)?)
}

/// Runs the program of a row over a reader and a writer, and appends how the run came out.
fn stream_over(
    alloc: Global,
    code: &Code<'_>,
    row: &Row,
    reader: &mut WornSource<'_>,
    writer: &mut WornSink,
    out: &mut Vec<u8>,
) -> Result<(), Failure>
    requires reads { reader.old.failures ≡ 0 }
    requires writes { writer.old.failures ≡ 0 }
{
    let limit = short_number(row, b"limit", 100)?;
    let choices = choices(alloc, row.field(b"choices"))?;
    let chooser = Chooser::Listed(&choices);
    let streamed = run_stream(alloc, code, reader, writer, limit, chooser);
    Ok(append_outcome(alloc, out, streamed)?)
}

/// Appends how a run came out, or why it was refused.
fn append_outcome(
    alloc: Global,
    out: &mut Vec<u8>,
    streamed: Result<Streamed, RunsError>,
) -> Result<(), NoMemory> {
    match streamed {
        Ok(streamed) => append_streamed(out, &streamed),
        Err(error) => append_error(alloc, out, error),
    }
}
