//! Explorers over both machines, and their runs. Most of these functions have no contract, because
//! each clause makes the proofs of their callers longer. Two functions name a machine, `by_copied`
//! and `by_trailed`, because a call of a generic function at a machine takes seconds to prove.

ghost use Rattle.std.specs.Prelude.{◌≡◌, [], IfOk};

use crate::failure::Failure;
use crate::tasks::{Task, done};
use ick_bits::NoMemory;
use ick_code::Code;
use ick_machine::{Asks, Copied, Trailed};
use ick_runs::{Cursor, Explorer, Run};
use std::alloc::Global;

/// Where a listing starts, and the limit on the steps of its runs.
#[derive(Clone, Copy)]
pub struct Start<'s> {
    /// The input of each run.
    pub input: &'s [u8],
    pub limit: u32,
    /// The count of work at the start.
    pub work: u64,
    /// The text of the cursor of the run before the first one, or an empty text.
    pub from: &'s [u8],
}

/// Does a task on the machine that copies what it marks.
pub fn by_copied(
    alloc: Global,
    code: &Code<'_>,
    start: &Start<'_>,
    task: &Task<'_>,
    out: &mut Vec<u8>,
) -> Result<bool, Failure> {
    let machine = Copied::new(alloc, code, start.input, start.work);
    explore(alloc, machine, start, task, out)
}

/// Does a task on the machine that notes its changes.
pub fn by_trailed(
    alloc: Global,
    code: &Code<'_>,
    start: &Start<'_>,
    task: &Task<'_>,
    out: &mut Vec<u8>,
) -> Result<bool, Failure> {
    let machine = Trailed::new(alloc, code, start.input, start.work);
    explore(alloc, machine, start, task, out)
}

/// Does a task with an explorer of a machine, if there was memory for the machine.
fn explore<'c, M: Asks<'c>>(
    alloc: Global,
    machine: Result<M, NoMemory>,
    start: &Start<'_>,
    task: &Task<'_>,
    out: &mut Vec<u8>,
) -> Result<bool, Failure>
    requires { IfOk machine (λ machine. (M.seen machine).marks ≡ []) }
{
    let mut explorer = explorer(alloc, machine?, start)?;
    done(alloc, task, &mut explorer, out)
}

/// Returns an explorer at the start of a listing, or after the run of a cursor if its text is not
/// empty.
fn explorer<'c, M: Asks<'c>>(
    alloc: Global,
    machine: M,
    start: &Start<'_>,
) -> Result<Explorer<M>, Failure>
    requires { (M.seen machine).marks ≡ [] }
{
    if start.from.is_empty() {
        return Ok(Explorer::start(alloc, machine, start.limit));
    }
    let cursor = Cursor::from_text(alloc, start.from, start.limit)?;
    Ok(Explorer::after(alloc, machine, start.limit, &cursor)?)
}

/// Returns the next run.
pub fn next<'c, M: Asks<'c>>(explorer: &mut Explorer<M>) -> Result<Option<Run<'c>>, Failure> {
    Ok(explorer.next()?)
}

/// Passes the next run. Returns whether there was one.
pub fn pass<'c, M: Asks<'c>>(explorer: &mut Explorer<M>) -> Result<bool, Failure> {
    Ok(next(explorer)?.is_some())
}
