//! The job that arguments ask for.
ghost use Rattle.std.specs.Prelude.{◌≡◌, IfOk, List, Option};
ghost use Rattle.clap.specs.Words.{Row, Text, fault_of};
ghost use Rattle.clap.specs.Kinds.{FailsBy};
ghost use Rattle.clap.specs.Walk.{texts};
ghost use Rattle.ick_cli.specs.Words.{ick_app};
ghost use Rattle.ick_cli.specs.Job.{asked, asked_in, job_of, task_named, task_of};
ghost use Rattle.ick_job.specs.Values.{AreGiven, AreValues};

use crate::words::commands::{COMMANDS, ICK};
use clap::Error;
use ick_job::{Values, values_given};
use std::alloc::Global;

/// What is to be done with a program.
#[derive(Clone, Copy)]
pub enum Subcommand<'a> {
    /// Its statements are counted.
    Check,
    /// Its statements are listed.
    List,
    /// It is run: with the choices of a text, or with those that a seed draws.
    Run {
        choices: Option<&'a str>,
        seed: Option<u64>,
        limit: u32,
    },
    /// Its runs are listed, from the one on that the text of a cursor names.
    Runs {
        from: Option<&'a str>,
        count: u32,
        limit: u32,
    },
}

/// What the arguments ask for. The source is in the file, or comes from the reader if no file is
/// named.
#[derive(Clone, Copy)]
pub struct Job<'a> {
    pub subcommand: Subcommand<'a>,
    pub file: Option<&'a str>,
}

/// Reads the arguments. If they ask for a job, only running out of memory can refuse it.
pub fn read_job<'a>(alloc: Global, words: &'a [&'a str]) -> Result<Job<'a>, Error>
    ensures job { IfOk result (λ job. asked job ≡ job_of (texts words.entry.now)) }
    ensures law { FailsBy (fault_of ick_app (texts words.entry.now)) result }
{
    match values_given(alloc, &ICK, COMMANDS, words) {
        Ok(values) => Ok(job_by(&values)),
        Err(error) => Err(error),
    }
}

/// Returns the job that values ask for. If they name no command, it is a run without a file.
fn job_by<'a>(values: &Values<'a>) -> Job<'a>
    ensures { (rows : List Row) (found : Option (Text × List Row)) → AreGiven rows found values.now
        → asked result ≡ asked_in found }
{
    match values.command {
        Some(name) => Job {
            subcommand: subcommand_named(name, values),
            file: values.file,
        },
        None => Job {
            subcommand: Subcommand::Run {
                choices: None,
                seed: None,
                limit: 1_000_000,
            },
            file: None,
        },
    }
}

/// Returns the command of a name, with its options.
fn subcommand_named<'a>(name: &str, values: &Values<'a>) -> Subcommand<'a>
    ensures { (rows : List Row) → AreValues rows values.now
        → task_of result ≡ task_named name.now rows }
{
    if name == "check" {
        Subcommand::Check
    } else if name == "list" {
        Subcommand::List
    } else if name == "runs" {
        Subcommand::Runs {
            from: values.from,
            count: values.count.unwrap_or(1000),
            limit: values.limit.unwrap_or(10_000),
        }
    } else {
        Subcommand::Run {
            choices: values.choices,
            seed: values.seed,
            limit: values.limit.unwrap_or(1_000_000),
        }
    }
}
