//! Writes a listing as text.

ghost use Rattle.std.specs.Prelude.{◌≡◌, ◌↔◌, ◌+◌, ◌*◌, ◌<◌, ◌≤◌};
ghost use Rattle.std.specs.Prelude.{◌^◌, ◌⊎◌, ℕ, List, Bool, true};
ghost use Rattle.std.specs.Prelude.{false, ◌++◌, take, Err, IfOk, IfErr, OnOk};
ghost use Rattle.ick_code.specs.meaning.State.{State};
ghost use Rattle.ick_explorer.specs.Standing.{Stands, IsListingAt, HasFailed};
ghost use Rattle.ick_explorer.specs.Explorers.{explored};
ghost use Rattle.ick_explorer.specs.Lines.{last_line};
ghost use Rattle.ick_explorer.specs.Writes.{Writes, write_failures};

use crate::errors::RunsError;
use crate::explorer::Explorer;
use crate::lines::LineBuilder;
use crate::listing::Listed2;
use ick_backtrack::Asks;
use ick_devices::{ByteSink, write_whole};
use std::alloc::Global;

/// Writes the last line of a listing. Returns `listed`. The answer is `Write` if the writer fails,
/// and a prefix of the line is then written.
fn write_last<W: ByteSink>(writer: &mut W, listed: Listed2) -> Result<Listed2, RunsError>
    requires room { W.failed writer.old + 1 < 2 ^ 64 }
    ensures listed { IfOk result (λ r. r ≡ listed) }
    ensures errors { IfErr result (λ e. e ≡ RunsError.Write) }
    ensures count { W.failed writer.new ≡ W.failed writer.old + write_failures result }
    ensures beginning { W.told ≡ true → (n : ℕ)
        × (W.written writer.new ≡ W.written writer.old ++ take n (last_line listed)) }
    ensures all { W.told ≡ true →
        OnOk result (W.written writer.new ≡ W.written writer.old ++ last_line listed) }
{
    let line = match listed {
        Listed2::More => b"MORE\n",
        Listed2::Done => b"DONE\n",
    };
    match write_whole(writer, line) {
        Ok(()) => Ok(listed),
        Err(_) => Err(RunsError::Write),
    }
}

/// Writes the listing from the explorer's position (this profile). The listing has a line for each
/// of the next `count` runs, or for all runs if fewer are left. Its last line is `MORE` if a
/// further run exists, else `DONE`. Each line is written as soon as its run is found.
///
/// A line holds the run's choices, its end and its output in double quotes. The end is `GIVE-UP`,
/// `LIMIT` or `Ennn@j`. In `Ennn@j`, `nnn` is the number of the fault and `j` the number of its
/// statement.
///
/// The writer's count of failures must be below its greatest value.
///
/// Each refusal leaves the earlier lines written whole:
///
/// - `Failed` if the explorer had failed. Nothing is written and nothing changes.
/// - `WorkFull` if a further run is expected and the count of work has less than the limit left.
///   The explorer's position is after the last run written.
/// - `NoMemory` if this call runs out of memory. The explorer has then failed.
/// - `Write` if the writer fails. Some bytes of the line may be written. The explorer's position is
///   after the run of that line.
pub fn write_runs<'c, M: Asks<'c>, W: ByteSink>(
    alloc: Global,
    explorer: &mut Explorer<M>,
    count: u32,
    writer: &mut W,
) -> Result<Listed2, RunsError>
    requires { W.failed writer.old + 1 < 2 ^ 64 }
    ensures failed { result ≡ Err RunsError.Failed ↔ (explored explorer.old).failed ≡ true }
    ensures refused { result ≡ Err RunsError.Failed →
        (explored explorer.new ≡ explored explorer.old) × (writer.new ≡ writer.old) }
    ensures errors { IfErr result (λ e. (e ≡ RunsError.NoMemory)
        ⊎ ((e ≡ RunsError.WorkFull)
        ⊎ ((e ≡ RunsError.Write) ⊎ (e ≡ RunsError.Failed)))) }
    ensures count { W.failed writer.new ≡ W.failed writer.old + write_failures result }
    ensures no_memory { result ≡ Err RunsError.NoMemory → HasFailed (explored explorer.new) }
    ensures enough { result ≡ Err RunsError.WorkFull →
        2 ^ 64 ≤ (explored explorer.old).work + count * (explored explorer.old).limit }
    ensures listing { (s : State) (cs : List (List Bool)) → Stands s (explored explorer.old) →
        IsListingAt s (explored explorer.old) cs →
        Writes W.told s cs count (explored explorer.old) (explored explorer.new)
        (W.written writer.old) (W.written writer.new) result }
{
    if explorer.has_failed() {
        return Err(RunsError::Failed);
    }
    let mut lines = LineBuilder::new(alloc);
    'each: for _i in 0..count {
        match explorer.write_next(&mut lines, writer) {
            Err(refused) => return Err(refused),
            Ok(false) => break 'each,
            Ok(true) => {}
        }
    }
    let listed = if explorer.more() {
        Listed2::More
    } else {
        Listed2::Done
    };
    write_last(writer, listed)
}
