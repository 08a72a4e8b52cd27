//! Listings on a writer that fails, and how they go on after that.

ghost use Rattle.std.specs.Prelude.{◌≡◌};

use crate::devices::WornSink;
use crate::explorers::by_trailed;
use crate::failure::Failure;
use crate::fields::{number, start_of};
use crate::listings::append_listing;
use crate::tasks::Task;
use crate::texts::{append_error, append_number};
use ick_bits::append_quoted;
use ick_code::Code;
use ick_machine::Asks;
use ick_runs::{Explorer, Listed2, write_runs};
use std::alloc::Global;
use test_rows::Row;

/// Lists the runs of a program on writers that take from `least` to `most` bytes. Appends what
/// came after the last failure, if it was the same each time and the writers took just those bytes
/// of the whole listing.
pub fn cut_short(
    alloc: Global,
    code: &Code<'_>,
    row: &Row,
    out: &mut Vec<u8>,
) -> Result<(), Failure> {
    let least = number(row, b"least", 0)?;
    let most = number(row, b"most", 0)?;
    for room in least..=most {
        if !is_as_before(alloc, code, row, room, room == least, out)? {
            return Ok(());
        }
    }
    Ok(())
}

/// Lists the runs of a program on a writer that takes so many bytes. Appends what came after its
/// failure, if it is the first writer, or that another listing came than before. Returns whether
/// the listing is right.
fn is_as_before(
    alloc: Global,
    code: &Code<'_>,
    row: &Row,
    room: u64,
    is_first: bool,
    out: &mut Vec<u8>,
) -> Result<bool, Failure> {
    let start = start_of(row)?;
    let task = Task::CutShort(room, row.field(b"whole"));
    let mut rest = Vec::new(alloc);
    let is_front = by_trailed(alloc, code, &start, &task, &mut rest)?;
    if is_first && is_front {
        out.extend_from_slice(&rest)?;
    }
    compare(out, room, is_front, &rest)
}

/// Appends that a writer with this room took other bytes, or that another listing followed, if one
/// is so. Returns whether none is so.
fn compare(out: &mut Vec<u8>, room: u64, is_front: bool, rest: &[u8]) -> Result<bool, Failure> {
    if is_front && out.as_slice() == rest {
        return Ok(true);
    }
    append_number(out, b" differs at ", room)?;
    append_quoted(out, rest)?;
    Ok(false)
}

/// Lists runs on a writer that takes so many bytes, and appends to `rest` what is listed after
/// that. Returns whether the writer took just those bytes of the whole listing.
pub fn list_cut_short<'c, M: Asks<'c>>(
    alloc: Global,
    explorer: &mut Explorer<M>,
    room: u64,
    whole: &[u8],
    rest: &mut Vec<u8>,
) -> Result<bool, Failure> {
    let mut worn = WornSink {
        bytes: Vec::new(alloc),
        room,
        failures: 0,
    };
    list_on(alloc, explorer, &mut worn, rest)?;
    Ok(worn.bytes.as_slice() == &whole[..whole.len().min(room as usize)])
}

/// Lists runs on a writer. Appends `DONE` or `MORE` to `rest`, or if the writer fails, the failure
/// and what is listed then.
fn list_on<'c, M: Asks<'c>>(
    alloc: Global,
    explorer: &mut Explorer<M>,
    worn: &mut WornSink,
    rest: &mut Vec<u8>,
) -> Result<(), Failure>
    requires { worn.old.failures ≡ 0 }
{
    match write_runs(alloc, explorer, 1000, worn) {
        Ok(Listed2::Done) => Ok(rest.extend_from_slice(b"DONE")?),
        Ok(Listed2::More) => Ok(rest.extend_from_slice(b"MORE")?),
        Err(error) => {
            append_error(alloc, rest, error)?;
            rest.extend_from_slice(b", ")?;
            append_listing(alloc, rest, explorer, 1000)
        }
    }
}
