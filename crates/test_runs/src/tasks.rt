//! What is done with an explorer, whatever its machine.

use crate::counts::append_all_counts;
use crate::cut_short::list_cut_short;
use crate::explorers::{next, pass};
use crate::failure::Failure;
use crate::listings::append_listing;
use crate::many::append_many;
use crate::same::is_same;
use ick_machine::Asks;
use ick_runs::{Explorer, Run};
use std::alloc::Global;

/// More runs than an explorer gives before one that it must find.
const MOST: u32 = 10;

/// What is done with an explorer.
#[derive(Clone, Copy)]
pub enum Task<'t> {
    /// Appends a listing of at most so many runs.
    List(u32),
    /// Appends the counts before and after each run.
    Count,
    /// Appends how many runs make so many steps, and how many others there are.
    Many(u32),
    /// Lists the runs on a writer that takes so many bytes of a listing, and appends what is listed
    /// after that. Asks whether the writer took just those bytes.
    CutShort(u64, &'t [u8]),
    /// Asks whether this run is listed.
    Find(&'t Run<'t>),
    /// Asks whether these runs are listed, and no others.
    Compare(&'t [Run<'t>]),
}

/// Does a task. Returns the answer to the task's question, or `true` if the task asks nothing.
pub fn done<'c, M: Asks<'c>>(
    alloc: Global,
    task: &Task<'_>,
    explorer: &mut Explorer<M>,
    out: &mut Vec<u8>,
) -> Result<bool, Failure> {
    match *task {
        Task::List(count) => append_listing(alloc, out, explorer, count).and(Ok(true)),
        Task::Count => append_all_counts(alloc, out, explorer).and(Ok(true)),
        Task::Many(steps) => append_many(out, explorer, steps).and(Ok(true)),
        Task::CutShort(room, whole) => { list_cut_short(alloc, explorer, room, whole, out) }
        Task::Find(run) => finds(explorer, run),
        Task::Compare(runs) => gives(explorer, runs),
    }
}

/// Whether an explorer gives a run.
fn finds<'c, M: Asks<'c>>(explorer: &mut Explorer<M>, run: &Run<'_>) -> Result<bool, Failure> {
    for _ in 0..MOST {
        match next(explorer)? {
            Some(found) if found.choices == run.choices => return Ok(is_same(&found, run)),
            Some(_) => {}
            None => return Ok(false),
        }
    }
    Ok(false)
}

/// Whether an explorer gives these runs and then none.
fn gives<'c, M: Asks<'c>>(explorer: &mut Explorer<M>, runs: &[Run<'_>]) -> Result<bool, Failure> {
    for wanted in runs {
        if !gives_one(explorer, wanted)? {
            return Ok(false);
        }
    }
    Ok(!explorer.more() && !pass(explorer)?)
}

/// Whether an explorer gives this run.
fn gives_one<'c, M: Asks<'c>>(
    explorer: &mut Explorer<M>,
    wanted: &Run<'_>,
) -> Result<bool, Failure> {
    match next(explorer)? {
        Some(found) => Ok(is_same(&found, wanted)),
        None => Ok(false),
    }
}
