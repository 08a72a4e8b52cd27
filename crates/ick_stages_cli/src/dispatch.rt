//! From a job to its answer: the source is read, then compiled, then its stages are shown.

ghost use Rattle.std.specs.Prelude.{◌≡◌, ◌+◌, ◌<◌, ◌^◌, ◌∷◌, [], List, false, true};
ghost use Rattle.ick_code.specs.Compiled.{code_program};
ghost use Rattle.ick_job.specs.JobEnd.{EndsBy, Leaves, LeavesWriter, WhereAnswered, source_of};
ghost use Rattle.ick_source.specs.declared.all_faults.FaultAt.{FaultAt};
ghost use Rattle.ick_source.specs.RefusalAnswers.{Refuses};
ghost use Rattle.ick_source.specs.Refusals.{Compiles};
ghost use Rattle.ick_stages.specs.Listed.{AreSome};
ghost use Rattle.ick_stages.specs.Stages.{AreWhole, needs_code};
ghost use Rattle.ick_stages_cli.specs.Gives.{Gives, end_by};
ghost use Rattle.ick_stages_cli.specs.Job.{has_file, wanted};
ghost use Rattle.ick_stages_cli.specs.Program.{left_by};
ghost use Rattle.ick_stages_cli.specs.Tool.{AreShown, IsCodeAnswer, IsListedAnswer};
ghost use Rattle.ick_stages_cli.specs.Tool.{IsSomehowRefused, IsSourceAnswer};
ghost use Rattle.ick_stages_cli.specs.Tool.{IsStagesAnswer, MayShow, is_there, no_statement};
ghost use Rattle.ick_syntax.specs.Programs.{trees_of};

use crate::words::Job;
use ick_bits::NoMemory;
use ick_code::{Code, compile};
use ick_devices::{ByteSink, ByteSource, Files};
use ick_explorer::RunsError;
use ick_job::{JobEnd, Message, read_file, read_front, refused};
use ick_source::{FaultAt, Refusal, Seen, read_source, read_statements};
use ick_stages::{Asked, write_listed, write_stages};
use ick_syntax::Program;
use std::alloc::Global;

/// Does a job up to its error text. The source is in the file that the job names. If the job names
/// no file, the reader has the source.
pub fn perform<F: Files, R: ByteSource, W: ByteSink>(
    alloc: Global,
    job: &Job<'_>,
    files: &mut F,
    reader: &mut R,
    writer: &mut W,
) -> JobEnd
    requires files_sound { F.failed files.old + 1 < 2 ^ 64 }
    requires reader_sound { R.failed reader.old + 1 < 2 ^ 64 }
    requires writer_sound { W.failed writer.old + 1 < 2 ^ 64 }
    ensures leaves { Leaves result (F.failed files.old) (F.failed files.new)
        (R.failed reader.old) (R.failed reader.new) (W.failed writer.old) (W.failed writer.new) }
    ensures gives { F.told ≡ true → R.told ≡ true → W.told ≡ true → let job = wanted job.now in
        let source = source_of job.file (F.named files.old) (F.failed files.old)
        (F.failed files.new) (R.left reader.old) in
        Gives (IsStagesAnswer job source) (MayShow job source)
        result (W.written writer.old) (W.written writer.new) }
    ensures left { F.told ≡ true → R.told ≡ true → WhereAnswered result
        (R.left reader.new ≡ left_by (wanted job.now).file (R.left reader.old)) }
    ensures reader_kept { has_file (wanted job.now) ≡ true → reader.new ≡ reader.old }
    ensures files_kept { has_file (wanted job.now) ≡ false → files.new ≡ files.old }
    ensures source_first { has_file (wanted job.now) ≡ false
        → R.failed reader.old < R.failed reader.new → writer.new ≡ writer.old }
{
    match job.file {
        Some(name) => match read_file(alloc, name, files) {
            Ok(source) => answer_source(alloc, &job.asked, source.as_slice(), writer),
            Err(job_end) => job_end,
        },
        None => match read_front(alloc, reader) {
            Ok(source) => answer_source(alloc, &job.asked, source.as_slice(), writer),
            Err(job_end) => job_end,
        },
    }
}

/// Answers a source: by its code if any lines are asked for that need it, else by its statements.
fn answer_source<W: ByteSink>(alloc: Global, asked: &Asked, source: &[u8], writer: &mut W) -> JobEnd
    requires { W.failed writer.old + 1 < 2 ^ 64 }
    ensures leaves { LeavesWriter result (W.failed writer.old) (W.failed writer.new) }
    ensures gives { W.told ≡ true → Gives (IsSourceAnswer asked.now source.now)
        (AreShown asked.now source.now) result
        (W.written writer.old) (W.written writer.new) }
{
    if !asked.needs_code() {
        return answer_listed(alloc, asked, source, writer);
    }
    match read_source(alloc, source) {
        Ok(program) => answer_program(alloc, asked, source, &program, writer),
        Err(refusal) => answer_refused(alloc, asked, source, refusal, writer),
    }
}

/// Answers a source that is refused: by its statements, unless it is too long or memory ran out.
fn answer_refused<W: ByteSink>(
    alloc: Global,
    asked: &Asked,
    source: &[u8],
    refusal: Refusal,
    writer: &mut W,
) -> JobEnd
    requires refuses { Refuses source.now refusal }
    requires sound { W.failed writer.old + 1 < 2 ^ 64 }
    ensures leaves { LeavesWriter result (W.failed writer.old) (W.failed writer.new) }
    ensures gives { W.told ≡ true → Gives (IsSourceAnswer asked.now source.now)
        (AreShown asked.now source.now) result
        (W.written writer.old) (W.written writer.new) }
{
    match refusal {
        Refusal::Fault(_, _) => answer_listed(alloc, asked, source, writer),
        _ => refused(alloc, refusal),
    }
}

/// Answers a source by its statements, whether it is refused or not.
fn answer_listed<W: ByteSink>(alloc: Global, asked: &Asked, source: &[u8], writer: &mut W) -> JobEnd
    requires may { needs_code asked.now ≡ true → IsSomehowRefused source.now }
    requires sound { W.failed writer.old + 1 < 2 ^ 64 }
    ensures leaves { LeavesWriter result (W.failed writer.old) (W.failed writer.new) }
    ensures gives { W.told ≡ true → Gives (IsSourceAnswer asked.now source.now)
        (AreShown asked.now source.now) result
        (W.written writer.old) (W.written writer.new) }
{
    match read_statements(alloc, source) {
        Ok(listed) => {
            let seen = listed.statements.as_slice();
            answer_statements(alloc, asked, source, seen, listed.faults.as_slice(), writer)
        }
        Err(refusal) => refused(alloc, refusal),
    }
}

/// Answers the statements and the faults of a source.
fn answer_statements<W: ByteSink>(
    alloc: Global,
    asked: &Asked,
    source: &[u8],
    seen: &[Seen<'_>],
    faults: &[FaultAt],
    writer: &mut W,
) -> JobEnd
    requires sound { W.failed writer.old + 1 < 2 ^ 64 }
    ensures leaves { LeavesWriter result (W.failed writer.old) (W.failed writer.new) }
    ensures gives { W.told ≡ true → Gives (IsListedAnswer asked.now source.now
        seen.now faults.now)
        (AreSome source.now seen.now faults.now asked.now) result
        (W.written writer.old) (W.written writer.new) }
{
    match faults.first() {
        None => answer_sound(alloc, asked, source, seen, faults, writer),
        Some(fault) => answer_faulty(alloc, asked, source, seen, faults, *fault, writer),
    }
}

/// Answers the statements of a source without faults, if it has the statement that is asked for.
fn answer_sound<W: ByteSink>(
    alloc: Global,
    asked: &Asked,
    source: &[u8],
    seen: &[Seen<'_>],
    faults: &[FaultAt],
    writer: &mut W,
) -> JobEnd
    requires faultless { faults.now ≡ [] }
    requires sound { W.failed writer.old + 1 < 2 ^ 64 }
    ensures leaves { LeavesWriter result (W.failed writer.old) (W.failed writer.new) }
    ensures gives { W.told ≡ true → Gives (IsListedAnswer asked.now source.now
        seen.now faults.now)
        (AreSome source.now seen.now faults.now asked.now) result
        (W.written writer.old) (W.written writer.new) }
{
    if !has_statement(asked.only, seen.len() as u64) {
        return none(alloc);
    }
    let written = write_listed(alloc, writer, source, seen, faults, asked);
    end_of(written)
}

/// Answers the statements of a source that is refused with this fault.
fn answer_faulty<W: ByteSink>(
    alloc: Global,
    asked: &Asked,
    source: &[u8],
    seen: &[Seen<'_>],
    faults: &[FaultAt],
    fault: FaultAt,
    writer: &mut W,
) -> JobEnd
    requires faulty { (others : List FaultAt) × (faults.now ≡ fault ∷ others) }
    requires sound { W.failed writer.old + 1 < 2 ^ 64 }
    ensures leaves { LeavesWriter result (W.failed writer.old) (W.failed writer.new) }
    ensures gives { W.told ≡ true → Gives (IsListedAnswer asked.now source.now
        seen.now faults.now)
        (AreSome source.now seen.now faults.now asked.now) result
        (W.written writer.old) (W.written writer.new) }
{
    match write_listed(alloc, writer, source, seen, faults, asked) {
        Ok(()) => refused(alloc, Refusal::Fault(fault.kind, fault.number)),
        Err(failed) => end_of(Err(failed)),
    }
}

/// Answers a program, by its code.
fn answer_program<W: ByteSink>(
    alloc: Global,
    asked: &Asked,
    source: &[u8],
    program: &Program<'_>,
    writer: &mut W,
) -> JobEnd
    requires needs { needs_code asked.now ≡ true }
    requires compiles { Compiles source.now (trees_of program.now) }
    requires sound { W.failed writer.old + 1 < 2 ^ 64 }
    ensures leaves { LeavesWriter result (W.failed writer.old) (W.failed writer.new) }
    ensures gives { W.told ≡ true → Gives (IsSourceAnswer asked.now source.now)
        (AreShown asked.now source.now) result
        (W.written writer.old) (W.written writer.new) }
{
    match compile(alloc, program) {
        Ok(code) => {
            // Its stages need that the operations are those of the program.
            code.law();
            answer_code(alloc, asked, source, program, &code, writer)
        }
        Err(NoMemory) => JobEnd::NoMemory,
    }
}

/// Answers code, if it has the statement that is asked for. The lines of each statement are written
/// as soon as they are made.
fn answer_code<W: ByteSink>(
    alloc: Global,
    asked: &Asked,
    source: &[u8],
    program: &Program<'_>,
    code: &Code<'_>,
    writer: &mut W,
) -> JobEnd
    requires same { trees_of program.now ≡ code_program code.now }
    requires sound { W.failed writer.old + 1 < 2 ^ 64 }
    ensures leaves { LeavesWriter result (W.failed writer.old) (W.failed writer.new) }
    ensures gives { W.told ≡ true → Gives (IsCodeAnswer asked.now source.now code.now)
        (AreWhole code.now source.now asked.now)
        result (W.written writer.old) (W.written writer.new) }
{
    if !has_statement(asked.only, code.count() as u64) {
        return none(alloc);
    }
    let written = write_stages(alloc, writer, source, program, code, asked);
    end_of(written)
}

/// Returns how work ends by the answer of writing the stages.
fn end_of(written: Result<(), RunsError>) -> JobEnd
    ensures { result ≡ end_by written }
{
    match written {
        Ok(()) => JobEnd::Answered {
            status: 0,
            message: Message::Nothing,
        },
        Err(RunsError::Write) => JobEnd::WriteFailed,
        Err(_) => JobEnd::NoMemory,
    }
}

/// Returns whether there is the only statement that is asked for, among so many.
fn has_statement(only: Option<u32>, count: u64) -> bool
    ensures { result ≡ is_there only count }
{
    match only {
        Some(n) => u64::from(n) <= count,
        None => true,
    }
}

/// Returns how work ends if there is no such statement.
fn none(alloc: Global) -> JobEnd
    ensures { EndsBy 64 no_statement result }
{
    let mut text = Vec::new(alloc);
    match text.extend_from_slice(b"NO SUCH STATEMENT\n") {
        Ok(()) => JobEnd::Answered {
            status: 64,
            message: Message::Text(text),
        },
        Err(_) => JobEnd::NoMemory,
    }
}
