//! The work and the marks of a listing, run by run.

use crate::explorers::pass;
use crate::failure::Failure;
use crate::texts::{append_failure, append_number};
use ick_machine::{Asks, Backtrack};
use ick_runs::Explorer;
use std::alloc::Global;

/// More runs than any row lists.
const MOST: u32 = 100;

/// Appends the counts before and after each run, and how the listing ends, or why it stops and the
/// counts then.
pub fn append_all_counts<'c, M: Asks<'c>>(
    alloc: Global,
    out: &mut Vec<u8>,
    explorer: &mut Explorer<M>,
) -> Result<(), Failure> {
    append_counts(out, b"", explorer)?;
    if let Err(failure) = append_further_counts(out, explorer) {
        out.extend_from_slice(b", ")?;
        append_failure(alloc, out, failure)?;
        append_counts(out, b": ", explorer)?;
    }
    Ok(())
}

/// Appends the counts after each run, and how the listing ends.
fn append_further_counts<'c, M: Asks<'c>>(
    out: &mut Vec<u8>,
    explorer: &mut Explorer<M>,
) -> Result<(), Failure> {
    for _ in 0..MOST {
        if !pass(explorer)? {
            return Ok(out.extend_from_slice(b", done")?);
        }
        append_counts(out, b", ", explorer)?;
    }
    Ok(())
}

/// Appends the work and the marks, with a text before them, and whether a further run is due.
fn append_counts<M: Backtrack>(
    out: &mut Vec<u8>,
    before: &[u8],
    explorer: &Explorer<M>,
) -> Result<(), Failure> {
    append_number(out, before, explorer.work())?;
    append_number(out, b"/", explorer.points() as u64)?;
    if explorer.more() {
        out.extend_from_slice(b" more")?;
    }
    Ok(())
}
