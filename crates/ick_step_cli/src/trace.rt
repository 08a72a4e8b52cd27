//! The lines of all steps of a run.

ghost use Rattle.std.specs.Prelude.{◌≡◌, ◌+◌, ◌-◌, ◌<◌, ◌^◌, ◌++◌, ℕ, IfErr, IfOk, List, OnErr};
ghost use Rattle.std.specs.Prelude.{OnOk, [], length, take, true, false};
ghost use Rattle.ick_backtrack.specs.Asked.{IsGoing};
ghost use Rattle.ick_code.specs.Compiled.{code_program};
ghost use Rattle.ick_code.specs.meaning.Move.{advance, ask};
ghost use Rattle.ick_explorer.specs.Writes.{write_failures};
ghost use Rattle.ick_inspect.specs.Text.{Adds};
ghost use Rattle.ick_machine.specs.Seen.{trailed_machine};
ghost use Rattle.ick_step.specs.History.{done_by};
ghost use Rattle.ick_session.specs.Given.{given_by};
ghost use Rattle.ick_session.specs.Travel.{answer_to};
ghost use Rattle.ick_step_cli.specs.Serve.{IsCutShort};
ghost use Rattle.ick_step_cli.specs.Tool.{IsBegun};
ghost use Rattle.ick_step_cli.specs.Talk.{Lines};
ghost use Rattle.ick_step_cli.specs.Trace.{IsTraceError, given_line, step_lines};
ghost use Rattle.ick_step_cli.specs.Traced.{Flushes, HasTraced, IsTraced, traced_run};

use ick_bits::NoMemory;
use ick_code::Code;
use ick_devices::{ByteSink, write_whole};
use ick_explorer::RunsError;
use ick_inspect::{LineColumn, Text};
use ick_machine::{Ask, Asks, End, Trailed};
use ick_session::{Given, Pair, append_answered, append_here, append_place, trace_step};
use std::alloc::Global;

/// The number of bytes from which on lines are written.
const BLOCK: usize = 65_536;

/// How a traced run stopped, and after how many steps.
#[derive(Clone, Copy, Debug)]
pub struct Stopped<'c> {
    /// The end of the run, or `None` if a choice was asked and none was left.
    pub end: Option<End<'c>>,
    pub steps: u32,
}

/// Writes the lines and clears them.
fn flush<W: ByteSink>(out: &mut Text, writer: &mut W) -> Result<(), RunsError>
    requires { W.failed writer.old + 1 < 2 ^ 64 }
    ensures writes { W.failed writer.new ≡ W.failed writer.old + write_failures result }
    ensures errors { IfErr result IsTraceError }
    ensures empty { OnOk result (out.new.bytes.items ≡ []) }
    ensures all { W.told ≡ true → OnOk result ((out.old.refused ≡ false)
        × (W.written writer.new ≡ W.written writer.old ++ out.old.bytes.items)) }
    ensures cut { W.told ≡ true → OnErr result ((n : ℕ)
        × (W.written writer.new ≡ W.written writer.old ++ take n out.old.bytes.items)
        × (out.old.refused ≡ true → n ≡ 0)) }
{
    let bytes = out.bytes()?;
    match write_whole(writer, bytes) {
        Ok(()) => {
            out.clear();
            Ok(())
        }
        Err(_) => Err(RunsError::Write),
    }
}

/// Writes the lines and clears them, if there are enough.
fn flush_block<W: ByteSink>(out: &mut Text, writer: &mut W) -> Result<(), RunsError>
    requires { W.failed writer.old + 1 < 2 ^ 64 }
    ensures writes { W.failed writer.new ≡ W.failed writer.old + write_failures result }
    ensures errors { IfErr result IsTraceError }
    ensures flushes { OnOk result (Flushes W.told out.old out.new
        (W.written writer.old) (W.written writer.new)) }
    ensures cut { W.told ≡ true → OnErr result ((n : ℕ)
        × (W.written writer.new ≡ W.written writer.old ++ take n out.old.bytes.items)
        × (out.old.refused ≡ true → n ≡ 0)) }
{
    let bytes = out.bytes()?;
    if bytes.len() < BLOCK {
        return Ok(());
    }
    flush(out, writer)
}

/// Returns the answer of the next step: nothing, or a choice if one is asked. Returns `None` if no
/// step can be made, since the run has ended or the choice isn't given. `chosen` is the number of
/// the choices so far.
fn next_answer(
    machine: &Trailed<'_, '_>,
    given: &mut Given,
    chosen: usize,
) -> Result<Option<Option<bool>>, NoMemory>
    ensures same { given_by given.new ≡ given_by given.old }
    ensures is { let m = trailed_machine machine.now in IfOk result (λ found.
        found ≡ answer_to (given_by given.old) chosen (ask m.program m.state)) }
{
    match machine.asks() {
        Ask::Plain => Ok(Some(None)),
        Ask::Choice(chance) => match given.choice(chosen, chance)? {
            Some(done) => Ok(Some(Some(done))),
            None => Ok(None),
        },
        Ask::Ended(_) => Ok(None),
    }
}

/// Appends which choice a step is given, if one is asked.
fn append_given(out: &mut Text, machine: &Trailed<'_, '_>, answer: Option<bool>)
    ensures { let m = trailed_machine machine.now in
        Adds out.old out.new (given_line answer (ask m.program m.state)) }
{
    let Some(done) = answer else {
        return;
    };
    if let Ask::Choice(chance) = machine.asks() {
        append_answered(out, chance, done);
    }
}

/// Makes a step with both machines, and appends its lines: the statement that is met, the choice
/// that the step is given, and what the step changed.
fn append_lines(
    machines: &mut Pair<'_, '_>,
    code: &Code<'_>,
    positions: &[LineColumn],
    steps: u32,
    answer: Option<bool>,
    out: &mut Text,
) -> Result<(), NoMemory>
    requires same { trailed_machine machines.old.after ≡ trailed_machine machines.old.before }
    requires code { code_program code.now ≡ (trailed_machine machines.old.before).program }
    requires going { IsGoing (ask (trailed_machine machines.old.before).program
        (trailed_machine machines.old.before).state) }
    requires room { (trailed_machine machines.old.before).work < 2 ^ 64 - 1 }
    requires positions { length positions.now
        ≡ length (trailed_machine machines.old.before).program }
    ensures same { OnOk result (trailed_machine machines.new.after
        ≡ trailed_machine machines.new.before) }
    ensures step { let m = trailed_machine machines.old.before in OnOk result (
        trailed_machine machines.new.before ≡ record m {
          state = advance m.program m.state (done_by answer);
          work = m.work + 1;
        }) }
    ensures lines { let m = trailed_machine machines.old.before in OnOk result (
        Adds out.old out.new (step_lines m.program code.now positions.now steps m.state answer)) }
{
    append_place(out, positions, steps as usize, &machines.before.present());
    append_given(out, &machines.before, answer);
    trace_step(machines, code, out, answer.unwrap_or(false))?;
    Ok(())
}

/// Makes at most `limit` steps, and appends the lines of each. `code` is the code that the machines
/// run. Returns how the run stopped. Lines are written as soon as there are enough of them.
fn trace_steps<'c, 'a, W: ByteSink>(
    machines: &mut Pair<'c, 'a>,
    code: &Code<'_>,
    positions: &[LineColumn],
    given: &mut Given,
    limit: u32,
    out: &mut Text,
    writer: &mut W,
) -> Result<Stopped<'c>, RunsError>
    requires same { trailed_machine machines.old.after ≡ trailed_machine machines.old.before }
    requires code { code_program code.now ≡ (trailed_machine machines.old.before).program }
    requires room { (trailed_machine machines.old.before).work + limit < 2 ^ 64 }
    requires positions { length positions.now
        ≡ length (trailed_machine machines.old.before).program }
    requires empty { out.old.bytes.items ≡ [] }
    requires writes { W.failed writer.old + 1 < 2 ^ 64 }
    ensures writes { W.failed writer.new ≡ W.failed writer.old + write_failures result }
    ensures errors { IfErr result IsTraceError }
    ensures traces { let f = traced_run (trailed_machine machines.old.before)
        (given_by given.old) limit in IfOk result (λ stopped.
        HasTraced f code.now positions.now stopped (trailed_machine machines.new.before) W.told
        (W.written writer.old) (W.written writer.new) out.new) }
    ensures cut { let f = traced_run (trailed_machine machines.old.before)
        (given_by given.old) limit in W.told ≡ true → OnErr result (
        (lines : Lines) → IsCutShort (IsBegun f positions.now lines true)
        (W.written writer.old) (W.written writer.new)) }
{
    code.law();
    let mut steps = 0;
    let mut chosen = 0;
    'on: loop {
        if let Ask::Ended(end) = machines.before.asks() {
            return Ok(Stopped {
                end: Some(end),
                steps,
            });
        }
        if steps == limit {
            return Ok(Stopped {
                end: Some(End::Limit),
                steps,
            });
        }
        let Some(answer) = next_answer(&machines.before, given, chosen)? else {
            return Ok(Stopped { end: None, steps });
        };
        append_lines(machines, code, positions, steps, answer, out)?;
        chosen += usize::from(answer.is_some());
        steps += 1;
        flush_block(out, writer)?;
    }
}

/// Traces a run of at most `limit` steps: writes the lines of each step, and where the run stopped.
/// Returns how it stopped. Both machines must be in the same state, with the same count of work.
/// The count must have room for `limit` steps. `code` is the code that they run. `positions` has
/// one position for each statement.
///
/// The refusals are `NoMemory`, and `Write` if the writer fails. Then a prefix of the lines is
/// written.
pub fn trace<'c, 'a, W: ByteSink>(
    alloc: Global,
    machines: &mut Pair<'c, 'a>,
    code: &Code<'_>,
    positions: &[LineColumn],
    given: &mut Given,
    limit: u32,
    writer: &mut W,
) -> Result<Stopped<'c>, RunsError>
    requires same { trailed_machine machines.old.after ≡ trailed_machine machines.old.before }
    requires code { code_program code.now ≡ (trailed_machine machines.old.before).program }
    requires room { (trailed_machine machines.old.before).work + limit < 2 ^ 64 }
    requires positions { length positions.now
        ≡ length (trailed_machine machines.old.before).program }
    requires writes { W.failed writer.old + 1 < 2 ^ 64 }
    ensures writes { W.failed writer.new ≡ W.failed writer.old + write_failures result }
    ensures errors { IfErr result IsTraceError }
    ensures traces { let f = traced_run (trailed_machine machines.old.before)
        (given_by given.old) limit in W.told ≡ true → IfOk result (λ stopped.
        IsTraced f code.now positions.now stopped
        (W.written writer.old) (W.written writer.new)) }
    ensures cut { let f = traced_run (trailed_machine machines.old.before)
        (given_by given.old) limit in W.told ≡ true → OnErr result (
        (lines : Lines) → IsCutShort (IsBegun f positions.now lines true)
        (W.written writer.old) (W.written writer.new)) }
{
    code.law();
    let mut out = Text::new(alloc);
    let stopped = trace_steps(machines, code, positions, given, limit, &mut out, writer)?;
    append_here(
        &mut out,
        positions,
        stopped.steps as usize,
        &machines.before,
    );
    flush(&mut out, writer)?;
    Ok(stopped)
}
