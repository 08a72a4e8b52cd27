//! From a job to its answer: the source is read, then compiled, then the input is read, then the
//! run is traced or stepped through.

ghost use Rattle.std.specs.Prelude.{◌≡◌, ◌+◌, ◌<◌, ◌≤◌, ◌^◌, ℕ, IfErr, IfOk, List, None, OnErr};
ghost use Rattle.std.specs.Prelude.{Some, false, is_some, length, option_map, true};
ghost use Rattle.ick_backtrack.specs.Asked.{finish_of};
ghost use Rattle.ick_code.specs.Compiled.{code_program};
ghost use Rattle.ick_explorer.specs.Writes.{write_failures};
ghost use Rattle.ick_job.specs.Input.{longest_input};
ghost use Rattle.ick_job.specs.JobEnd.{EndsBy, EndsByLine, Leaves, LeavesStreams, LeavesWriter};
ghost use Rattle.ick_job.specs.JobEnd.{WhereAnswered, source_of};
ghost use Rattle.ick_job.specs.Stopped.{stopped_status, stopped_text};
ghost use Rattle.ick_job.specs.declared.notice.Notice.{Notice};
ghost use Rattle.ick_source.specs.Cut.{IsCut};
ghost use Rattle.ick_syntax.specs.StatementTree.{statement_trees};
ghost use Rattle.ick_step_cli.specs.Job.{has_file, wanted};
ghost use Rattle.ick_step_cli.specs.Left.{HasNoProgram, IsLeft, IsLeftByRun, IsLeftBySource};
ghost use Rattle.ick_step_cli.specs.Left.{IsLeftRead, IsRefusedFile};
ghost use Rattle.ick_step_cli.specs.Plan.{AreRefused, planned_by};
ghost use Rattle.ick_step_cli.specs.Serve.{EndsUnread, Gives, IsCutShort};
ghost use Rattle.ick_step_cli.specs.Talk.{Lines, typed};
ghost use Rattle.ick_step_cli.specs.Tool.{IsBegun, IsReadAnswer, IsReadBegun, IsRunAnswer};
ghost use Rattle.ick_step_cli.specs.Tool.{IsSourceAnswer, IsSourceBegun, IsStepAnswer, IsStepBegun};
ghost use Rattle.ick_step_cli.specs.Tool.{Placed, input_of, lines_by, run_of};
ghost use Rattle.ick_step_cli.specs.Trace.{IsTraceError, stop_status, stop_text};
ghost use Rattle.ick_step_cli.specs.Traced.{IsTraced};

use crate::plan::{Plan, plan_of};
use crate::session::talk;
use crate::trace::{Stopped, trace};
use crate::words::Job;
use ick_bits::{NoMemory, append_message};
use ick_code::{Code, compile};
use ick_devices::{ByteSink, ByteSource, Files, SliceSource};
use ick_explorer::RunsError;
use ick_inspect::{LineColumn, one_start, positions_of};
use ick_job::{JobEnd, LONGEST, Stop, read_file, read_front, refused, stopped_run};
use ick_machine::{End, Trailed};
use ick_session::{Pair, Session};
use ick_source::read_source;
use ick_syntax::Statement;
use std::alloc::Global;

/// Reads the input, which is empty if no file is named. If it can't be read, the work ends.
fn read_input<I: Files>(
    alloc: Global,
    name: Option<&str>,
    inputs: &mut I,
) -> Result<Vec<u8>, JobEnd>
    requires { I.failed inputs.old + 1 < 2 ^ 64 }
    ensures count { IfOk result (λ _. I.failed inputs.new ≡ I.failed inputs.old) }
    ensures fits { IfOk result (λ input. length input.items ≤ longest_input) }
    ensures whole { I.told ≡ true → IfOk result (λ input. Some input.items
        ≡ input_of (option_map (λ s. s.now) name.entry) (I.named inputs.old)
        (I.failed inputs.old) (I.failed inputs.new)) }
    ensures leaves { IfErr result (λ job_end.
        Leaves job_end (I.failed inputs.old) (I.failed inputs.new) 0 0 0 0) }
    ensures unread { I.told ≡ true → IfErr result
        (EndsUnread (option_map (λ s. s.now) name.entry) (I.named inputs.old)) }
    ensures kept { option_map (λ s. s.now) name.entry ≡ None → inputs.new ≡ inputs.old }
{
    let Some(name) = name else {
        return Ok(Vec::new(alloc));
    };
    match read_file(alloc, name, inputs) {
        Ok(input) if input.len() <= LONGEST => Ok(input),
        Ok(_) => Err(JobEnd::InputTooLong),
        Err(job_end) => Err(job_end),
    }
}

/// Does a job up to its error text. The source is in the file that the job names, and the reader
/// has the commands, which are typed at a terminal or aren't. If the job names no file, the reader
/// has the source, and there are no commands.
pub fn perform<F: Files, I: Files, R: ByteSource, W: ByteSink>(
    alloc: Global,
    job: &Job<'_>,
    files: &mut F,
    inputs: &mut I,
    terminal: bool,
    reader: &mut R,
    writer: &mut W,
) -> JobEnd
    requires files_sound { F.failed files.old + 1 < 2 ^ 64 }
    requires inputs_sound { I.failed inputs.old + 1 < 2 ^ 64 }
    requires reader_sound { R.failed reader.old + 1 < 2 ^ 64 }
    requires writer_sound { W.failed writer.old + 1 < 2 ^ 64 }
    ensures leaves { Leaves result (F.failed files.old + I.failed inputs.old)
        (F.failed files.new + I.failed inputs.new) (R.failed reader.old) (R.failed reader.new)
        (W.failed writer.old) (W.failed writer.new) }
    ensures gives { F.told ≡ true → I.told ≡ true → R.told ≡ true → W.told ≡ true →
        let job = wanted job.now in
        let source = source_of job.file (F.named files.old) (F.failed files.old)
        (F.failed files.new) (R.left reader.old) in
        let input = input_of job.input (I.named inputs.old) (I.failed inputs.old)
        (I.failed inputs.new) in
        let lines = lines_by terminal job.file (R.left reader.old) in
        Gives (IsStepAnswer job input lines source) (IsStepBegun job input lines source) result
        (W.written writer.old) (W.written writer.new) }
    ensures left { F.told ≡ true → I.told ≡ true → R.told ≡ true → WhereAnswered result
        (IsLeft (wanted job.now) (F.named files.old) (R.left reader.old) (R.left reader.new)) }
    ensures reader_kept { has_file (wanted job.now) ≡ true → (wanted job.now).trace ≡ true
        → reader.new ≡ reader.old }
    ensures files_kept { has_file (wanted job.now) ≡ false → files.new ≡ files.old }
    ensures inputs_kept { (wanted job.now).input ≡ None → inputs.new ≡ inputs.old }
    ensures inputs_refused { F.told ≡ true → IsRefusedFile (wanted job.now).file (F.named files.old)
        → inputs.new ≡ inputs.old }
    ensures source_first { has_file (wanted job.now) ≡ false
        → R.failed reader.old < R.failed reader.new → writer.new ≡ writer.old }
    ensures unplanned { let job = wanted job.now in
        (line : Notice) → AreRefused job.choices job.seed line
        → (files.new ≡ files.old) × (inputs.new ≡ inputs.old) × (reader.new ≡ reader.old)
        × (writer.new ≡ writer.old) × EndsByLine (λ other. other ≡ line) result }
{
    match plan_of(alloc, job) {
        Ok(plan) => answer_job(
            alloc, job.file, plan, files, inputs, terminal, reader, writer,
        ),
        Err(job_end) => job_end,
    }
}

/// Answers a planned job: its source is read from its file, or from the reader.
fn answer_job<F: Files, I: Files, R: ByteSource, W: ByteSink>(
    alloc: Global,
    file: Option<&str>,
    plan: Plan<'_>,
    files: &mut F,
    inputs: &mut I,
    terminal: bool,
    reader: &mut R,
    writer: &mut W,
) -> JobEnd
    requires files_sound { F.failed files.old + 1 < 2 ^ 64 }
    requires inputs_sound { I.failed inputs.old + 1 < 2 ^ 64 }
    requires reader_sound { R.failed reader.old + 1 < 2 ^ 64 }
    requires writer_sound { W.failed writer.old + 1 < 2 ^ 64 }
    ensures leaves { Leaves result (F.failed files.old + I.failed inputs.old)
        (F.failed files.new + I.failed inputs.new) (R.failed reader.old) (R.failed reader.new)
        (W.failed writer.old) (W.failed writer.new) }
    ensures gives { F.told ≡ true → I.told ≡ true → R.told ≡ true → W.told ≡ true →
        let file = option_map (λ s. s.now) file.entry in
        let plan = planned_by plan.entry in
        let source = source_of file (F.named files.old) (F.failed files.old)
        (F.failed files.new) (R.left reader.old) in
        let input = input_of plan.input (I.named inputs.old) (I.failed inputs.old)
        (I.failed inputs.new) in
        let lines = lines_by terminal file (R.left reader.old) in
        Gives (IsReadAnswer plan input lines source) (IsReadBegun plan input lines source) result
        (W.written writer.old) (W.written writer.new) }
    ensures left { F.told ≡ true → I.told ≡ true → R.told ≡ true → WhereAnswered result
        (IsLeftRead (option_map (λ s. s.now) file.entry) (planned_by plan.entry).trace
        (F.named files.old) (R.left reader.old) (R.left reader.new)) }
    ensures reader_kept { is_some (option_map (λ s. s.now) file.entry) ≡ true
        → (planned_by plan.entry).trace ≡ true → reader.new ≡ reader.old }
    ensures files_kept { is_some (option_map (λ s. s.now) file.entry) ≡ false
        → files.new ≡ files.old }
    ensures inputs_kept { (planned_by plan.entry).input ≡ None → inputs.new ≡ inputs.old }
    ensures inputs_refused { F.told ≡ true
        → IsRefusedFile (option_map (λ s. s.now) file.entry) (F.named files.old)
        → inputs.new ≡ inputs.old }
    ensures source_first { is_some (option_map (λ s. s.now) file.entry) ≡ false
        → R.failed reader.old < R.failed reader.new → writer.new ≡ writer.old }
{
    match file {
        Some(name) => match read_file(alloc, name, files) {
            Ok(source) => answer_source(
                alloc,
                plan,
                source.as_slice(),
                inputs,
                terminal,
                reader,
                writer,
            ),
            Err(job_end) => job_end,
        },
        None => match read_front(alloc, reader) {
            Ok(source) => {
                let mut nothing = SliceSource::new(&[]);
                answer_source(
                    alloc,
                    plan,
                    source.as_slice(),
                    inputs,
                    false,
                    &mut nothing,
                    writer,
                )
            }
            Err(job_end) => job_end,
        },
    }
}

/// Answers a source: it is refused, or its program is compiled, and the input is read.
fn answer_source<I: Files, R: ByteSource, W: ByteSink>(
    alloc: Global,
    plan: Plan<'_>,
    source: &[u8],
    inputs: &mut I,
    terminal: bool,
    reader: &mut R,
    writer: &mut W,
) -> JobEnd
    requires inputs_sound { I.failed inputs.old + 1 < 2 ^ 64 }
    requires reader_sound { R.failed reader.old + 1 < 2 ^ 64 }
    requires writer_sound { W.failed writer.old + 1 < 2 ^ 64 }
    ensures leaves { Leaves result (I.failed inputs.old) (I.failed inputs.new)
        (R.failed reader.old) (R.failed reader.new) (W.failed writer.old) (W.failed writer.new) }
    ensures gives { I.told ≡ true → R.told ≡ true → W.told ≡ true →
        let plan = planned_by plan.entry in
        let input = input_of plan.input (I.named inputs.old) (I.failed inputs.old)
        (I.failed inputs.new) in
        let lines = typed terminal (R.left reader.old) in
        Gives (IsSourceAnswer plan input lines source.now)
        (IsSourceBegun plan input lines source.now) result
        (W.written writer.old) (W.written writer.new) }
    ensures left { I.told ≡ true → R.told ≡ true → WhereAnswered result (IsLeftBySource
        (planned_by plan.entry).trace source.now (R.left reader.old) (R.left reader.new)) }
    ensures reader_kept { (planned_by plan.entry).trace ≡ true → reader.new ≡ reader.old }
    ensures inputs_kept { (planned_by plan.entry).input ≡ None → inputs.new ≡ inputs.old }
    ensures inputs_refused { HasNoProgram source.now → inputs.new ≡ inputs.old }
{
    let program = match read_source(alloc, source) {
        Ok(program) => program,
        Err(refusal) => return refused(alloc, refusal),
    };
    let code = match compile(alloc, &program) {
        Ok(code) => code,
        Err(NoMemory) => return JobEnd::NoMemory,
    };
    match read_input(alloc, plan.input, inputs) {
        Ok(input) => answer_code(
            alloc,
            program.statements(),
            &code,
            source,
            input.as_slice(),
            plan,
            terminal,
            reader,
            writer,
        ),
        Err(job_end) => job_end,
    }
}

/// Traces a run of code over an input, or steps through it. The statements are those of the code's
/// program.
fn answer_code<R: ByteSource, W: ByteSink>(
    alloc: Global,
    statements: &[Statement<'_>],
    code: &Code<'_>,
    source: &[u8],
    input: &[u8],
    plan: Plan<'_>,
    terminal: bool,
    reader: &mut R,
    writer: &mut W,
) -> JobEnd
    requires statements { statement_trees statements.now ≡ code_program code.now }
    requires reader_sound { R.failed reader.old + 1 < 2 ^ 64 }
    requires writer_sound { W.failed writer.old + 1 < 2 ^ 64 }
    ensures leaves { LeavesStreams result (R.failed reader.old) (R.failed reader.new)
        (W.failed writer.old) (W.failed writer.new) }
    ensures gives { R.told ≡ true → W.told ≡ true → IsCut source.now (code_program code.now) →
        let plan = planned_by plan.entry in
        let f = run_of (code_program code.now) input.now plan in
        let lines = typed terminal (R.left reader.old) in
        Gives (λ answer. Placed source.now f.program (λ positions.
        IsRunAnswer f positions lines plan.trace answer))
        (λ text. Placed source.now f.program (λ positions.
        IsBegun f positions lines plan.trace text))
        result (W.written writer.old) (W.written writer.new) }
    ensures left { R.told ≡ true → WhereAnswered result (IsLeftByRun (R.left reader.old)
        (planned_by plan.entry).trace (R.left reader.new)) }
    ensures reader_kept { (planned_by plan.entry).trace ≡ true → reader.new ≡ reader.old }
{
    // The positions are those of the source, which has one list of them.
    one_start();
    let positions = match positions_of(alloc, source, code) {
        Ok(positions) => positions,
        Err(NoMemory) => return JobEnd::NoMemory,
    };
    if plan.trace {
        return answer_trace(alloc, code, &positions, input, plan, writer);
    }
    let machine = match Trailed::new(alloc, code, input, 0) {
        Ok(machine) => machine,
        Err(NoMemory) => return JobEnd::NoMemory,
    };
    let mut session = Session::new(alloc, machine, plan.given, plan.limit);
    talk(
        alloc,
        &positions,
        statements,
        &mut session,
        terminal,
        reader,
        writer,
    )
}

/// Traces a run of code over an input.
fn answer_trace<W: ByteSink>(
    alloc: Global,
    code: &Code<'_>,
    positions: &[LineColumn],
    input: &[u8],
    plan: Plan<'_>,
    writer: &mut W,
) -> JobEnd
    requires sound { W.failed writer.old + 1 < 2 ^ 64 }
    requires positions { length positions.now ≡ length (code_program code.now) }
    ensures leaves { LeavesWriter result (W.failed writer.old) (W.failed writer.new) }
    ensures gives { W.told ≡ true → (lines : Lines) →
        let f = run_of (code_program code.now) input.now (planned_by plan.entry) in
        Gives (IsRunAnswer f positions.now lines true) (IsBegun f positions.now lines true)
        result (W.written writer.old) (W.written writer.new) }
{
    code.law();
    match traced(alloc, code, positions, input, plan, writer) {
        Ok(stopped) => answer_stopped(alloc, &stopped),
        Err(error) => JobEnd::refused(error),
    }
}

/// Traces a run of code over an input. Returns how the run stopped.
fn traced<'c, W: ByteSink>(
    alloc: Global,
    code: &'c Code<'_>,
    positions: &[LineColumn],
    input: &'c [u8],
    plan: Plan<'_>,
    writer: &mut W,
) -> Result<Stopped<'c>, RunsError>
    requires sound { W.failed writer.old + 1 < 2 ^ 64 }
    requires positions { length positions.now ≡ length (code_program code.now) }
    ensures writes { W.failed writer.new ≡ W.failed writer.old + write_failures result }
    ensures errors { IfErr result IsTraceError }
    ensures traces { let f = run_of (code_program code.now) input.now (planned_by plan.entry) in
        W.told ≡ true → IfOk result (λ stopped. IsTraced f code.now positions.now stopped
        (W.written writer.old) (W.written writer.new)) }
    ensures cut { let f = run_of (code_program code.now) input.now (planned_by plan.entry) in
        W.told ≡ true → OnErr result ((lines : Lines) →
        IsCutShort (IsBegun f positions.now lines true)
        (W.written writer.old) (W.written writer.new)) }
{
    let mut machines = Pair {
        before: Trailed::new(alloc, code, input, 0)?,
        after: Trailed::new(alloc, code, input, 0)?,
    };
    let mut given = plan.given;
    trace(
        alloc,
        &mut machines,
        code,
        positions,
        &mut given,
        plan.limit,
        writer,
    )
}

/// Returns how work ends with a traced run that has stopped.
fn answer_stopped(alloc: Global, stopped: &Stopped<'_>) -> JobEnd
    ensures { let end = option_map finish_of stopped.now.end in
        EndsBy (stop_status end) (stop_text end stopped.now.steps) result }
{
    match stop_of(alloc, &stopped.end) {
        Ok(stop) => stopped_run(alloc, stop, stopped.steps),
        Err(NoMemory) => JobEnd::NoMemory,
    }
}

/// Returns how a run stopped, in the form in which `ick run` reports it.
fn stop_of(alloc: Global, end: &Option<End<'_>>) -> Result<Stop, NoMemory>
    ensures status { IfOk result (λ stop.
        stopped_status stop ≡ stop_status (option_map finish_of end.now)) }
    ensures text { IfOk result (λ stop. (steps : ℕ) →
        stopped_text stop steps ≡ stop_text (option_map finish_of end.now) steps) }
{
    match end {
        None => Ok(Stop::Wants),
        Some(End::GiveUp) => Ok(Stop::GiveUp),
        Some(End::Limit) => Ok(Stop::Limit),
        Some(End::Fault(fault)) => {
            let mut message = Vec::new(alloc);
            append_message(&mut message, fault)?;
            Ok(Stop::Fault(message))
        }
    }
}
