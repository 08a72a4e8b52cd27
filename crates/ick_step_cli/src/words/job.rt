//! The job that arguments ask for.

ghost use Rattle.std.specs.Prelude.{◌≡◌, IfOk, List};
ghost use Rattle.clap.specs.Kinds.{FailsBy};
ghost use Rattle.clap.specs.Walk.{texts};
ghost use Rattle.clap.specs.Words.{Row, fault_of};
ghost use Rattle.ick_job.specs.Values.{AreValues};
ghost use Rattle.ick_step_cli.specs.Job.{job_of, wanted, wanted_in};
ghost use Rattle.ick_step_cli.specs.Words.{step_app};

use crate::words::command::STEP;
use clap::Error;
use ick_job::{Values, values_given};
use std::alloc::Global;

/// What the arguments ask for: a session or a trace of a run of the source. The source is in a
/// file, or the reader has it if no file is named. The input is in a file, or empty if none is
/// named.
#[derive(Clone, Copy)]
pub struct Job<'a> {
    pub choices: Option<&'a str>,
    pub seed: Option<u64>,
    pub limit: u32,
    pub input: Option<&'a str>,
    pub trace: bool,
    pub file: Option<&'a str>,
}

/// Reads the arguments. If they ask for a job, only running out of memory can refuse it.
pub fn read_job<'a>(alloc: Global, words: &'a [&'a str]) -> Result<Job<'a>, Error>
    ensures job { IfOk result (λ job. wanted job ≡ job_of (texts words.entry.now)) }
    ensures law { FailsBy (fault_of step_app (texts words.entry.now)) result }
{
    match values_given(alloc, &STEP, &[], words) {
        Ok(values) => Ok(job_by(&values)),
        Err(error) => Err(error),
    }
}

/// Returns the job that values ask for.
fn job_by<'a>(values: &Values<'a>) -> Job<'a>
    ensures { (rows : List Row) → AreValues rows values.now → wanted result ≡ wanted_in rows }
{
    Job {
        choices: values.choices,
        seed: values.seed,
        limit: values.limit.unwrap_or(1_000_000),
        input: values.input,
        trace: values.trace,
        file: values.file,
    }
}
