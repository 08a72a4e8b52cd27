//! `ick runs`: the runs of a program are listed.
ghost use Rattle.std.specs.Prelude.{◌≡◌, ◌+◌, ◌<◌, ◌≤◌, ◌^◌, IfErr, IfOk};
ghost use Rattle.std.specs.Prelude.{[], false, true};
ghost use Rattle.ick_code.specs.Compiled.{code_program};
ghost use Rattle.ick_code.specs.meaning.Move.{first_state};
ghost use Rattle.ick_code.specs.meaning.State.{State};
ghost use Rattle.ick_explorer.specs.Explorers.{explored};
ghost use Rattle.ick_explorer.specs.Standing.{Stands};
ghost use Rattle.ick_cli.specs.Dispatch.{AnswersCode};
ghost use Rattle.ick_job.specs.JobEnd.{Answers, LeavesWriter};
ghost use Rattle.ick_cli.specs.Placed.{IsPlaced, IsRunsAnswerAt, IsUnplaced};
ghost use Rattle.ick_job.specs.Answer.{Answer};
ghost use Rattle.ick_cli.specs.Tool.{IsRunsAnswer};

use crate::plan::Runs;
use ick_code::Code;
use ick_devices::{ByteSink, ByteSource};
use ick_job::{JobEnd, Message, read_input};
use ick_machine::{Asks, Trailed};
use ick_runs::{Cursor, Explorer, RunsError, write_runs};
use std::alloc::Global;

/// Answers code by the listing of its runs over an input, which is read whole. It lists all runs,
/// or those after the run of a cursor.
pub fn answer_runs<R: ByteSource, W: ByteSink>(
    alloc: Global,
    code: &Code<'_>,
    from: &Option<Cursor>,
    count: u32,
    limit: u32,
    reader: &mut R,
    writer: &mut W,
) -> JobEnd
    requires reader_sound { R.failed reader.old + 1 < 2 ^ 64 }
    requires writer_sound { W.failed writer.old + 1 < 2 ^ 64 }
    ensures { AnswersCode (code_program code.now) (Runs.Listed from.now count limit)
        (R.left reader.old) result
        R.told (R.failed reader.old) (R.failed reader.new) (R.left reader.new)
        W.told (W.failed writer.old) (W.failed writer.new)
        (W.written writer.old) (W.written writer.new) }
{
    match read_input(alloc, reader) {
        Ok(input) => list_over(alloc, code, input.as_slice(), from, count, limit, writer),
        Err(job_end) => job_end,
    }
}

/// Answers code by the listing of its runs over an input.
pub fn list_over<W: ByteSink>(
    alloc: Global,
    code: &Code<'_>,
    input: &[u8],
    from: &Option<Cursor>,
    count: u32,
    limit: u32,
    writer: &mut W,
) -> JobEnd
    requires { W.failed writer.old + 1 < 2 ^ 64 }
    ensures leaves { LeavesWriter result (W.failed writer.old) (W.failed writer.new) }
    ensures answer { W.told ≡ true → (answer : Answer)
        → let program = code_program code.now in
        IsRunsAnswer program (first_state program input.now) limit count from.now answer
        → Answers answer result (W.written writer.old) (W.written writer.new) }
{
    match Trailed::new(alloc, code, input, 0) {
        Ok(machine) => list_runs(alloc, machine, from, count, limit, writer),
        Err(_) => JobEnd::NoMemory,
    }
}

/// Answers by the listing of the runs from a machine's state.
fn list_runs<'c, M: Asks<'c>, W: ByteSink>(
    alloc: Global,
    machine: M,
    from: &Option<Cursor>,
    count: u32,
    limit: u32,
    writer: &mut W,
) -> JobEnd
    requires sound { W.failed writer.old + 1 < 2 ^ 64 }
    requires unmarked { (M.seen machine).marks ≡ [] }
    requires unworn { (M.seen machine).work ≡ 0 }
    ensures leaves { LeavesWriter result (W.failed writer.old) (W.failed writer.new) }
    ensures answer { W.told ≡ true → (answer : Answer)
        → IsRunsAnswer (M.seen machine).program (M.seen machine).state limit count from.now answer
        → Answers answer result (W.written writer.old) (W.written writer.new) }
{
    match explorer_from(alloc, machine, from, limit) {
        Ok(explorer) => list_from(alloc, explorer, count, writer),
        Err(error) => JobEnd::refused(error),
    }
}

/// Returns an explorer before all runs, or after the run of a cursor.
fn explorer_from<'c, M: Asks<'c>>(
    alloc: Global,
    machine: M,
    from: &Option<Cursor>,
    limit: u32,
) -> Result<Explorer<M>, RunsError>
    requires unmarked { (M.seen machine).marks ≡ [] }
    requires unworn { (M.seen machine).work ≡ 0 }
    ensures ok { IfOk result (λ e. IsPlaced (M.seen machine) limit from.now (explored e)) }
    ensures err { IfErr result (IsUnplaced (M.seen machine) limit from.now) }
{
    let Some(cursor) = from else {
        return Ok(Explorer::start(alloc, machine, limit));
    };
    match Explorer::after(alloc, machine, limit, cursor) {
        Ok(explorer) => Ok(explorer),
        Err(error) => Err(error),
    }
}

/// Answers by the listing of the runs after the position of an explorer.
fn list_from<'c, M: Asks<'c>, W: ByteSink>(
    alloc: Global,
    explorer: Explorer<M>,
    count: u32,
    writer: &mut W,
) -> JobEnd
    requires sound { W.failed writer.old + 1 < 2 ^ 64 }
    requires unfailed { (explored explorer).failed ≡ false }
    requires small { (explored explorer).limit < 2 ^ 32 }
    requires fresh { (explored explorer).work ≤ (explored explorer).limit }
    ensures leaves { LeavesWriter result (W.failed writer.old) (W.failed writer.new) }
    ensures answer { W.told ≡ true → (s : State) → Stands s (explored explorer)
        → (answer : Answer)
        → IsRunsAnswerAt s count (explored explorer) answer
        → Answers answer result (W.written writer.old) (W.written writer.new) }
{
    let mut explorer = explorer;
    match write_runs(alloc, &mut explorer, count, writer) {
        Ok(_) => JobEnd::Answered {
            status: 0,
            message: Message::Nothing,
        },
        Err(error) => JobEnd::refused(error),
    }
}
