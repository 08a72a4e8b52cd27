//! The job that arguments ask for.

ghost use Rattle.std.specs.Prelude.{◌≡◌, IfOk, List};
ghost use Rattle.clap.specs.Kinds.{FailsBy};
ghost use Rattle.clap.specs.Walk.{texts};
ghost use Rattle.clap.specs.Words.{Row, fault_of};
ghost use Rattle.ick_job.specs.Values.{AreValues};
ghost use Rattle.ick_stages_cli.specs.Job.{job_of, wanted, wanted_in};
ghost use Rattle.ick_stages_cli.specs.Words.{stages_app};

use crate::words::command::STAGES;
use clap::Error;
use ick_job::{Values, values_given};
use ick_stages::Asked;
use std::alloc::Global;

/// What the arguments ask for: the lines that are shown, and the file that has the source. The
/// reader has it if no file is named.
#[derive(Clone, Copy)]
pub struct Job<'a> {
    pub asked: Asked,
    pub file: Option<&'a str>,
}

/// Reads the arguments. If they ask for a job, only running out of memory can refuse it.
pub fn read_job<'a>(alloc: Global, words: &'a [&'a str]) -> Result<Job<'a>, Error>
    ensures job { IfOk result (λ job. wanted job ≡ job_of (texts words.entry.now)) }
    ensures law { FailsBy (fault_of stages_app (texts words.entry.now)) result }
{
    match values_given(alloc, &STAGES, &[], words) {
        Ok(values) => Ok(job_by(&values)),
        Err(error) => Err(error),
    }
}

/// Returns the job that values ask for: the lines of all stages if none are named.
fn job_by<'a>(values: &Values<'a>) -> Job<'a>
    ensures { (rows : List Row) → AreValues rows values.now → wanted result ≡ wanted_in rows }
{
    let some = values.tree
        || values.operations
        || values.parts
        || values.rules
        || values.instructions
        || values.traces;
    Job {
        asked: Asked {
            tree: values.tree || !some,
            operations: values.operations || !some,
            parts: values.parts || !some,
            places: values.parts,
            rules: values.rules || !some,
            instructions: values.instructions || !some,
            traces: values.traces || !some,
            only: values.statement,
        },
        file: values.file,
    }
}
