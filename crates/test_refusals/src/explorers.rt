//! Listings of a machine's runs. After a refused `next` or `write_runs` the explorer has failed for
//! good.

ghost use Rattle.std.specs.Prelude.{◌≡◌, []};

use crate::context::Context;
use crate::ends::{say_choices, say_end};
use crate::failure::{Call, Failure, Wrong};
use crate::fields::{cursor_of, limit, number};
use ick_machine::Asks;
use ick_runs::{Explorer, Run, RunsError, write_runs};
use test_rows::Row;

/// Lists runs of a machine by the call of a row, at most as many as its field `count` says: from
/// the first one, or after the cursor in the field `from`.
pub fn explore<'c, M: Asks<'c>>(
    context: &mut Context<'_>,
    row: &Row,
    machine: M,
) -> Result<(), Failure>
    requires { (M.seen machine).marks ≡ [] }
{
    let mut explorer = explorer_of(context, row, machine)?;
    explore_with(context, row, &mut explorer)
}

/// Lists the next runs of an explorer by the call of a row, and adds the explorer's counts.
fn explore_with<'c, M: Asks<'c>>(
    context: &mut Context<'_>,
    row: &Row,
    explorer: &mut Explorer<M>,
) -> Result<(), Failure> {
    list_or_write(context, row, explorer)?;
    say_counts(context, explorer);
    Ok(())
}

/// Adds the counts of an explorer: of the steps that it made, and of the points that it keeps.
fn say_counts<'c, M: Asks<'c>>(context: &mut Context<'_>, explorer: &Explorer<M>) {
    context.answer.count(explorer.work(), b" steps ");
    context.answer.count(explorer.points() as u64, b" points\n");
}

/// Lists the next runs of an explorer by the call of a row.
fn list_or_write<'c, M: Asks<'c>>(
    context: &mut Context<'_>,
    row: &Row,
    explorer: &mut Explorer<M>,
) -> Result<(), Failure> {
    let count = number(row, b"count", 0)?;
    if row.calls(b"next") {
        list(context, explorer, count)
    } else {
        write(context, explorer, count)
    }
}

/// Returns an explorer at the place that a row names.
fn explorer_of<'c, M: Asks<'c>>(
    context: &Context<'_>,
    row: &Row,
    machine: M,
) -> Result<Explorer<M>, Failure>
    requires { (M.seen machine).marks ≡ [] }
{
    let (alloc, limit) = (context.alloc(), limit(row)?);
    if row.field(b"from").is_empty() {
        return Ok(Explorer::start(alloc, machine, limit));
    }
    let cursor = cursor_of(alloc, row)?;
    match Explorer::after(alloc, machine, limit, &cursor) {
        Ok(explorer) => Ok(explorer),
        Err(RunsError::NoMemory) => Err(Failure::Refused(Call::After)),
        Err(_) => Err(Failure::Wrong(Wrong::OtherRefusal)),
    }
}

/// Adds the next runs by `next`.
fn list<'c, M: Asks<'c>>(
    context: &mut Context<'_>,
    explorer: &mut Explorer<M>,
    count: u32,
) -> Result<(), Failure> {
    for _ in 0..count {
        match explorer.next() {
            Ok(Some(run)) => say_run(context, &run),
            Ok(None) => return Ok(()),
            Err(RunsError::NoMemory) => return Err(failed(context, explorer, Call::Next)),
            Err(_) => return Err(Failure::Wrong(Wrong::OtherRefusal)),
        }
    }
    Ok(())
}

/// Adds a run.
fn say_run(context: &mut Context<'_>, run: &Run<'_>) {
    say_choices(&mut context.answer, &run.choices);
    say_end(&mut context.answer, run.end);
    context.answer.quote(&run.output);
    context.answer.count(u64::from(run.steps), b" steps\n");
}

/// Adds the lines of the next runs by `write_runs`. A refused call leaves whole lines.
fn write<'c, M: Asks<'c>>(
    context: &mut Context<'_>,
    explorer: &mut Explorer<M>,
    count: u32,
) -> Result<(), Failure> {
    match write_runs(context.alloc(), explorer, count, &mut context.answer) {
        Ok(_) => Ok(()),
        Err(RunsError::NoMemory) if is_in_lines(context.answer.bytes()) => {
            Err(failed(context, explorer, Call::WriteRuns))
        }
        Err(_) => Err(Failure::Wrong(Wrong::OtherRefusal)),
    }
}

/// Returns whether a text has whole lines only.
fn is_in_lines(text: &[u8]) -> bool {
    text.is_empty() || text.ends_with(b"\n")
}

/// Returns that a call was refused, if the explorer has failed: it keeps no point, has no further
/// run, and each further call answers `Failed`, makes no step and writes nothing.
fn failed<'c, M: Asks<'c>>(
    context: &mut Context<'_>,
    explorer: &mut Explorer<M>,
    call: Call,
) -> Failure {
    let work = explorer.work();
    context.other.clear();
    let has_failed = fails_to_write(context, explorer) && fails(explorer) && fails(explorer);
    let is_kept = has_no_more(explorer) && explorer.work() == work;
    if has_failed && is_kept && context.other.bytes().is_empty() {
        return Failure::Refused(call);
    }
    Failure::Wrong(Wrong::NotFailed)
}

/// Returns whether `write_runs` answers `Failed`. The bytes that it writes go to `other`.
fn fails_to_write<'c, M: Asks<'c>>(context: &mut Context<'_>, explorer: &mut Explorer<M>) -> bool {
    let written = write_runs(context.alloc(), explorer, 5, &mut context.other);
    matches!(written, Err(RunsError::Failed))
}

/// Returns whether `next` answers `Failed`.
fn fails<'c, M: Asks<'c>>(explorer: &mut Explorer<M>) -> bool {
    matches!(explorer.next(), Err(RunsError::Failed))
}

/// Returns whether an explorer keeps no point and has no further run.
fn has_no_more<'c, M: Asks<'c>>(explorer: &Explorer<M>) -> bool {
    explorer.points() == 0 && !explorer.more()
}
