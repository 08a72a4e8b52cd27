//! Runs a program whose input and output are streams.

ghost use Rattle.std.specs.Prelude.{◌≡◌, ◌+◌, ◌<◌, ◌^◌, ◌⊎◌};
ghost use Rattle.std.specs.Prelude.{ℕ, List, Bool, [], true, false, Err, IfOk, IfErr};
ghost use Rattle.ick_code.specs.meaning.Move.{first_state};
ghost use Rattle.ick_code.specs.Compiled.{code_program};
ghost use Rattle.ick_machine.specs.Live.{seen, fed, fault_message};
ghost use Rattle.ick_machine.specs.Printing.{IsAtInput, IsDone, Leaves, Prints};
ghost use Rattle.ick_explorer.specs.Runs.{run, Execution};
ghost use Rattle.ick_runs.specs.Chosen.{Chosen, IsChosen, Picks, chosen_of};
ghost use Rattle.ick_runs.specs.Streams.{Streams, StopsAtInput, source_failures};
ghost use Rattle.ick_runs.specs.Streaming.{Stops};
ghost use Rattle.ick_explorer.specs.Writes.{write_failures};

use crate::chooser::{Chooser, Picker};
use crate::sink_outlet::SinkOutlet;
use ick_code::Code;
use ick_devices::{ByteSink, ByteSource, Feed, SourceFeed};
use ick_explorer::RunsError;
use ick_machine::{EndKind, Live, LiveAsk, RunFault};
use std::alloc::Global;

/// Holds the result of a streamed run.
#[derive(Drop)]
pub struct Streamed {
    /// Tells how the run ended, or that it asked a choice when no choice was left.
    pub end: EndKind,
    /// Holds the message of the fault that ended the run, or no bytes.
    pub message: Vec<u8>,
    /// Lists the choices that the run used.
    pub choices: Vec<bool>,
    /// Counts the steps that the run made.
    pub steps: u32,
}

/// Returns the result of a run, or the refusal of this run. `ran` tells how the run stopped in the
/// machine's state, and its number of steps. Refuses with `NoMemory` if the message of the fault
/// that ended the run can't grow.
fn finish(
    alloc: Global,
    machine: &Live<'_, '_>,
    ran: Result<(EndKind, u32), RunsError>,
    choices: Vec<bool>,
) -> Result<Streamed, RunsError>
    ensures run { (told : Bool) (run : Execution) (c : List Bool) (before after left : List ℕ) →
        Stops told run c choices.items (fault_message (seen machine.now)) before after left ran →
        Streams told run c before after left result }
    ensures input { result ≡ Err RunsError.Read → ran ≡ Err RunsError.Read }
    ensures reads { source_failures result ≡ source_failures ran }
    ensures writes { write_failures result ≡ write_failures ran }
    ensures errors { IfErr ran (λ e. (e ≡ RunsError.NoMemory)
        ⊎ ((e ≡ RunsError.Read) ⊎ (e ≡ RunsError.Write))) →
        IfErr result (λ e. (e ≡ RunsError.NoMemory)
        ⊎ ((e ≡ RunsError.Read) ⊎ (e ≡ RunsError.Write))) }
{
    let (end, steps) = ran?;
    let mut message = Vec::new(alloc);
    machine.append_fault(&mut message)?;
    Ok(Streamed {
        end,
        message,
        choices,
        steps,
    })
}

/// Makes at most `limit` steps up to the next choice or the end, and returns their number. The
/// output that the machine holds is written first, and the output of each READ OUT as soon as the
/// statement is done. The answer is `NoMemory`, `Read` or `Write` if that part fails.
fn stride<F: Feed, W: ByteSink>(
    machine: &mut Live<'_, '_>,
    feed: &mut F,
    writer: &mut W,
    limit: u32,
) -> Result<u32, RunsError>
    requires sound { (seen machine.old).failed ≡ false }
    requires reads { F.failed feed.old + 1 < 2 ^ 64 }
    requires writes { W.failed writer.old + 1 < 2 ^ 64 }
    ensures prints { let old = seen machine.old in F.told ≡ true → Prints W.told old.program
        (fed (F.left feed.old) old.state) limit (fed (F.left feed.new) (seen machine.new).state)
        (W.written writer.old) (W.written writer.new) result }
    ensures input { let old = seen machine.old in F.told ≡ true → result ≡ Err RunsError.Read →
        IsAtInput W.told old.program (fed (F.left feed.old) old.state) limit
        (W.written writer.old) (W.written writer.new) }
    ensures rests { IfOk result (λ k. IsDone limit k (seen machine.new)) }
    ensures leaves { Leaves (seen machine.old) (seen machine.new) result }
    ensures reads { F.failed feed.new ≡ F.failed feed.old + source_failures result }
    ensures writes { W.failed writer.new ≡ W.failed writer.old + write_failures result }
    ensures held { F.held feed.new ≡ F.held feed.old }
    ensures errors { IfErr result (λ e. (e ≡ RunsError.NoMemory)
        ⊎ ((e ≡ RunsError.Read) ⊎ (e ≡ RunsError.Write))) }
{
    let (made, _) = machine.run(limit, feed, SinkOutlet { sink: writer });
    match made {
        Ok(made) => Ok(made),
        Err(RunFault::NoMemory) => Err(RunsError::NoMemory),
        Err(RunFault::Read) => Err(RunsError::Read),
        Err(RunFault::Write) => Err(RunsError::Write),
    }
}

/// Runs a machine from its state for at most `limit` steps, and lists the choices that the run used
/// in `choices`. Returns how the run stopped and its number of steps. The machine must not have
/// failed, and `choices` must be empty. The answer is `NoMemory`, `Read` or `Write` if that part
/// fails.
fn run_on<F: Feed, W: ByteSink>(
    machine: &mut Live<'_, '_>,
    feed: &mut F,
    writer: &mut W,
    limit: u32,
    picker: &mut Picker<'_>,
    choices: &mut Vec<bool>,
) -> Result<(EndKind, u32), RunsError>
    requires sound { (seen machine.old).failed ≡ false }
    requires unused { choices.old.items ≡ [] }
    requires reads { F.failed feed.old + 1 < 2 ^ 64 }
    requires writes { W.failed writer.old + 1 < 2 ^ 64 }
    ensures run { F.told ≡ true → let program = (seen machine.old).program in
        let state = fed (F.left feed.old) (seen machine.old).state in
        (chosen : Chosen) → Picks chosen 0 picker.old →
        (c : List Bool) → IsChosen program state limit chosen c →
        Stops W.told (run program state limit c) c choices.new.items
        (fault_message (seen machine.new))
        (W.written writer.old) (W.written writer.new) (F.left feed.new) result }
    ensures input { F.told ≡ true → let program = (seen machine.old).program in
        let state = fed (F.left feed.old) (seen machine.old).state in
        (chosen : Chosen) → Picks chosen 0 picker.old →
        (c : List Bool) → IsChosen program state limit chosen c →
        result ≡ Err RunsError.Read → StopsAtInput W.told program state limit c
        (W.written writer.old) (W.written writer.new) }
    ensures reads { F.failed feed.new ≡ F.failed feed.old + source_failures result }
    ensures writes { W.failed writer.new ≡ W.failed writer.old + write_failures result }
    ensures held { F.held feed.new ≡ F.held feed.old }
    ensures errors { IfErr result (λ e. (e ≡ RunsError.NoMemory)
        ⊎ ((e ≡ RunsError.Read) ⊎ (e ≡ RunsError.Write))) }
{
    let mut steps = 0;
    'along: loop {
        let made = stride(machine, feed, writer, limit - steps)?;
        steps += made;
        let asked = machine.asks();
        if let LiveAsk::Ended(end) = asked {
            return Ok((end, steps));
        }
        if steps == limit {
            return Ok((EndKind::Limit, steps));
        }
        let LiveAsk::Choice(chance) = asked else {
            return Ok((EndKind::Limit, steps));
        };
        let Some(done) = picker.pick(choices.len(), chance) else {
            return Ok((EndKind::Wants, steps));
        };
        choices.push(done)?;
        machine.step(done, feed)?;
        steps += 1;
    }
}

/// Runs a program as `run_stream` does, and takes the input off a feed. The counts of failures of
/// the feed and the writer must be below their greatest values. Its refusals are those of
/// `run_stream`, with `Read` if the feed fails.
pub fn run_fed<F: Feed, W: ByteSink>(
    alloc: Global,
    code: &Code<'_>,
    feed: &mut F,
    writer: &mut W,
    limit: u32,
    chooser: Chooser<'_>,
) -> Result<Streamed, RunsError>
    requires reads { F.failed feed.old + 1 < 2 ^ 64 }
    requires writes { W.failed writer.old + 1 < 2 ^ 64 }
    ensures run { F.told ≡ true → let program = code_program code.now in
        let first = first_state program (F.left feed.old) in
        (c : List Bool) → IsChosen program first limit (chosen_of chooser.entry) c →
        Streams W.told (run program first limit c) c
        (W.written writer.old) (W.written writer.new) (F.left feed.new) result }
    ensures input { F.told ≡ true → let program = code_program code.now in
        let first = first_state program (F.left feed.old) in
        (c : List Bool) → IsChosen program first limit (chosen_of chooser.entry) c →
        result ≡ Err RunsError.Read → StopsAtInput W.told program first limit c
        (W.written writer.old) (W.written writer.new) }
    ensures reads { F.failed feed.new ≡ F.failed feed.old + source_failures result }
    ensures writes { W.failed writer.new ≡ W.failed writer.old + write_failures result }
    ensures held { F.held feed.new ≡ F.held feed.old }
    ensures errors { IfErr result (λ e. (e ≡ RunsError.NoMemory)
        ⊎ ((e ≡ RunsError.Read) ⊎ (e ≡ RunsError.Write))) }
{
    let mut machine = Live::new(alloc, code)?;
    let mut picker = Picker::new(chooser);
    let mut choices = Vec::new(alloc);
    let ran = run_on(&mut machine, feed, writer, limit, &mut picker, &mut choices);
    finish(alloc, &machine, ran, choices)
}

/// Runs a program for at most `limit` steps (this profile), with given choices or with choices that
/// a seed draws. The run reads a line or a byte of input only when a statement needs it, and no
/// further byte. The output of each READ OUT is written as soon as the statement is done. This
/// includes a statement that ends by a fault (Revised Manual, 4.4.12, 4.4.13). Unused choices
/// change nothing.
///
/// The counts of failures of both devices must be below their greatest values. What was written at
/// a refusal is a prefix of the run's output. The refusals are:
///
/// - `NoMemory` if the run, its choices or its message can't grow.
/// - `Read` if the reader fails. It fails once, when the run needs input for a WRITE IN. Exactly
///   the output of the steps before this WRITE IN is written.
/// - `Write` if the writer fails. It fails once.
pub fn run_stream<R: ByteSource, W: ByteSink>(
    alloc: Global,
    code: &Code<'_>,
    reader: &mut R,
    writer: &mut W,
    limit: u32,
    chooser: Chooser<'_>,
) -> Result<Streamed, RunsError>
    requires reads { R.failed reader.old + 1 < 2 ^ 64 }
    requires writes { W.failed writer.old + 1 < 2 ^ 64 }
    ensures run { R.told ≡ true → let program = code_program code.now in
        let first = first_state program (R.left reader.old) in
        (c : List Bool) → IsChosen program first limit (chosen_of chooser.entry) c →
        Streams W.told (run program first limit c) c
        (W.written writer.old) (W.written writer.new) (R.left reader.new) result }
    ensures input { R.told ≡ true → let program = code_program code.now in
        let first = first_state program (R.left reader.old) in
        (c : List Bool) → IsChosen program first limit (chosen_of chooser.entry) c →
        result ≡ Err RunsError.Read → StopsAtInput W.told program first limit c
        (W.written writer.old) (W.written writer.new) }
    ensures reads { R.failed reader.new ≡ R.failed reader.old + source_failures result }
    ensures writes { W.failed writer.new ≡ W.failed writer.old + write_failures result }
    ensures errors { IfErr result (λ e. (e ≡ RunsError.NoMemory)
        ⊎ ((e ≡ RunsError.Read) ⊎ (e ≡ RunsError.Write))) }
{
    let mut feed = SourceFeed {
        source: reader,
        is_empty: false,
    };
    run_fed(alloc, code, &mut feed, writer, limit, chooser)
}
