//! A listing that nobody could make who began each run anew.

use crate::explorers::{by_trailed, next};
use crate::failure::Failure;
use crate::fields::{short_number, start_of};
use crate::tasks::Task;
use crate::texts::append_number;
use ick_code::Code;
use ick_machine::Asks;
use ick_runs::Explorer;
use std::alloc::Global;
use test_rows::Row;

/// More runs than any row lists.
const MOST: u32 = 2_000_000;

/// Appends how many runs of a row's program make so many steps, and how many others there are.
pub fn many(alloc: Global, code: &Code<'_>, row: &Row, out: &mut Vec<u8>) -> Result<(), Failure> {
    let steps = short_number(row, b"steps", 0)?;
    by_trailed(alloc, code, &start_of(row)?, &Task::Many(steps), out)?;
    Ok(())
}

/// Appends how many runs make so many steps, how many others there are, and the work.
pub fn append_many<'c, M: Asks<'c>>(
    out: &mut Vec<u8>,
    explorer: &mut Explorer<M>,
    steps: u32,
) -> Result<(), Failure> {
    let (same, others) = counted(explorer, steps)?;
    append_counts(out, same, others, explorer.work())
}

/// Appends a number of runs that make so many steps, of others, and the work.
fn append_counts(out: &mut Vec<u8>, same: u64, others: u64, work: u64) -> Result<(), Failure> {
    append_number(out, b"", same)?;
    append_number(out, b" runs, ", others)?;
    Ok(append_number(out, b" others, work ", work)?)
}

/// Counts the runs that make so many steps, and the others.
fn counted<'c, M: Asks<'c>>(explorer: &mut Explorer<M>, steps: u32) -> Result<(u64, u64), Failure> {
    let mut same = 0u64;
    let mut others = 0u64;
    for _ in 0..MOST {
        match next(explorer)? {
            Some(run) if run.steps == steps => same = same.saturating_add(1),
            Some(_) => others = others.saturating_add(1),
            None => break,
        }
    }
    Ok((same, others))
}
