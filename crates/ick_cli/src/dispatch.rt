//! From a job to its command: the source is read, then compiled, then the command answers.
ghost use Rattle.std.specs.Prelude.{◌≡◌, ◌+◌, ◌<◌, ◌^◌};
ghost use Rattle.ick_code.specs.Compiled.{code_program};
ghost use Rattle.ick_cli.specs.Dispatch.{AnswersCode, AnswersSource, Performs};
ghost use Rattle.ick_cli.specs.Job.{asked};
ghost use Rattle.ick_job.specs.Serve.{counts};

use crate::commands::{answer_check, answer_list, answer_runs, choices_in, job_end_of, list_over};
use crate::plan::{Plan, Runs, plan_of};
use crate::words::Job;
use ick_bits::NoMemory;
use ick_code::{Code, compile};
use ick_devices::{ByteSink, ByteSource, Feed, Files, SourceFeed};
use ick_job::{JobEnd, read_file, read_front, refused};
use ick_runs::{Chooser, run_fed};
use ick_source::read_source;
use std::alloc::Global;

/// Does a job up to its error text: plans it, reads its source, and answers that. The source is in
/// the file that the job names, and the reader has the input. If the job names no file, the reader
/// has the source, and is read before anything is written.
pub fn perform<F: Files, R: ByteSource, W: ByteSink>(
    alloc: Global,
    job: &Job<'_>,
    files: &mut F,
    reader: &mut R,
    writer: &mut W,
) -> JobEnd
    requires files_sound { F.failed files.old + 1 < 2 ^ 64 }
    requires reader_sound { R.failed reader.old + 1 < 2 ^ 64 }
    requires writer_sound { W.failed writer.old + 1 < 2 ^ 64 }
    ensures { Performs (asked job.now)
        (counts (F.failed files.old) (R.failed reader.old) (W.failed writer.old))
        (counts (F.failed files.new) (R.failed reader.new) (W.failed writer.new))
        F.told (F.named files.old) files.old files.new
        R.told (R.left reader.old) (R.left reader.new) reader.old reader.new
        W.told (W.written writer.old) (W.written writer.new) writer.old writer.new result }
{
    let plan = match plan_of(alloc, &job.subcommand) {
        Ok(plan) => plan,
        Err(job_end) => return job_end,
    };
    match job.file {
        Some(name) => match read_file(alloc, name, files) {
            Ok(source) => {
                let input = &mut SourceFeed {
                    source: reader,
                    is_empty: false,
                };
                answer_source(alloc, &plan, source.as_slice(), input, writer)
            }
            Err(job_end) => job_end,
        },
        None => match read_front(alloc, reader) {
            Ok(source) => {
                let input = &mut SourceFeed {
                    source: reader,
                    is_empty: true,
                };
                answer_source(alloc, &plan, source.as_slice(), input, writer)
            }
            Err(job_end) => job_end,
        },
    }
}

/// Answers a source: it is refused, or its program is counted, listed or compiled and run.
fn answer_source<'r, R: ByteSource, W: ByteSink>(
    alloc: Global,
    plan: &Plan,
    source: &[u8],
    input: &mut SourceFeed<'r, R>,
    writer: &mut W,
) -> JobEnd
    requires reader_sound { R.failed input.old.source.now + 1 < 2 ^ 64 }
    requires writer_sound { W.failed writer.old + 1 < 2 ^ 64 }
    ensures answers { let feed = ⟦<SourceFeed<'r, R> as Feed>⟧ in
        AnswersSource plan.now source.now (feed.left input.old) result
        R.told (feed.failed input.old) (feed.failed input.new) (feed.left input.new)
        input.old.source.now input.new.source.now
        W.told (W.failed writer.old) (W.failed writer.new)
        (W.written writer.old) (W.written writer.new) }
    ensures held { let feed = ⟦<SourceFeed<'r, R> as Feed>⟧ in
        feed.held input.new ≡ feed.held input.old }
{
    let program = match read_source(alloc, source) {
        Ok(program) => program,
        Err(refusal) => return refused(alloc, refusal),
    };
    match plan {
        Plan::Check => answer_check(alloc, &program, writer),
        Plan::List => answer_list(alloc, &program, writer),
        Plan::Execute(runs) => match compile(alloc, &program) {
            Ok(code) => answer_code(alloc, &code, runs, input, writer),
            Err(NoMemory) => JobEnd::NoMemory,
        },
    }
}

/// Answers code by its runs over an input.
fn answer_code<'r, R: ByteSource, W: ByteSink>(
    alloc: Global,
    code: &Code<'_>,
    runs: &Runs,
    input: &mut SourceFeed<'r, R>,
    writer: &mut W,
) -> JobEnd
    requires reader_sound { R.failed input.old.source.now + 1 < 2 ^ 64 }
    requires writer_sound { W.failed writer.old + 1 < 2 ^ 64 }
    ensures answers { let feed = ⟦<SourceFeed<'r, R> as Feed>⟧ in
        AnswersCode (code_program code.now) runs.now (feed.left input.old) result
        R.told (feed.failed input.old) (feed.failed input.new) (feed.left input.new)
        W.told (W.failed writer.old) (W.failed writer.new)
        (W.written writer.old) (W.written writer.new) }
    ensures held { let feed = ⟦<SourceFeed<'r, R> as Feed>⟧ in
        feed.held input.new ≡ feed.held input.old }
{
    match runs {
        Runs::Given { choices, limit } => {
            let chooser = Chooser::Listed(choices_in(choices));
            job_end_of(alloc, run_fed(alloc, code, input, writer, *limit, chooser))
        }
        Runs::Drawn { seed, limit } => {
            let chooser = Chooser::Seeded(*seed);
            job_end_of(alloc, run_fed(alloc, code, input, writer, *limit, chooser))
        }
        Runs::Listed { from, count, limit } => {
            if input.is_empty {
                return list_over(alloc, code, &[], from, *count, *limit, writer);
            }
            answer_runs(alloc, code, from, *count, *limit, input.source, writer)
        }
    }
}
