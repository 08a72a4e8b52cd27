//! The job that arguments ask for.

ghost use Rattle.std.specs.Prelude.{◌≡◌, IfOk, List};
ghost use Rattle.clap.specs.Kinds.{FailsBy};
ghost use Rattle.clap.specs.Walk.{texts};
ghost use Rattle.clap.specs.Words.{Row, fault_of};
ghost use Rattle.ick_job.specs.Values.{AreValues};
ghost use Rattle.ick_outcomes_cli.specs.Job.{asks_both, job_of, limits_too, lists_too, memory_of};
ghost use Rattle.ick_outcomes_cli.specs.Job.{states_too, wanted, wanted_in};
ghost use Rattle.ick_outcomes_cli.specs.Words.{outcomes_app};

use crate::words::command::OUTCOMES;
use clap::Error;
use ick_job::{Values, values_given};
use std::alloc::Global;

/// The limit on steps where one is needed and none is given.
pub const USUAL_LIMIT: u32 = 10_000;

/// The bytes that the states may take without a limit, if no number is given.
pub const USUAL_MEMORY: u64 = 2_000_000_000;

/// What is to be found out of the outcomes of a program.
#[derive(Clone, Copy)]
pub struct Question {
    /// How many states are kept at a time.
    pub most: u32,
    /// How many bytes the states may take without a limit, if a number is given.
    pub memory: Option<u64>,
    /// Whether weights are printed exactly.
    pub exact: bool,
    /// Whether only the numbers of outcomes and of runs are printed.
    pub total: bool,
    /// Whether outcomes are told apart by their ends alone.
    pub ends: bool,
    /// Whether states are printed in place of outcomes.
    pub states: bool,
}

impl Question {
    /// Returns how many bytes the states may take without a limit.
    pub fn memory_or_usual(&self) -> u64
        ensures { result ≡ memory_of self.now }
    {
        self.memory.unwrap_or(USUAL_MEMORY)
    }
}

/// What the arguments ask for: the outcomes of the source, or the statements that asked for the
/// choices of a listing. The source is in a file, or the reader has it if no file is named.
#[derive(Clone, Copy)]
pub struct Job<'a> {
    pub question: Question,
    /// The steps after which each run is cut short, if a number is given.
    pub limit: Option<u32>,
    pub listing: Option<&'a str>,
    pub file: Option<&'a str>,
}

impl Job<'_> {
    /// Returns whether the job names a listing and asks for a form of outcomes too.
    pub fn lists_too(&self) -> bool
        ensures { result ≡ lists_too (wanted self.now) }
    {
        self.listing.is_some() && (self.question.exact || self.question.total || self.question.ends)
    }

    /// Returns whether the job asks for states and for another answer too.
    pub fn states_too(&self) -> bool
        ensures { result ≡ states_too (wanted self.now) }
    {
        self.question.states
            && (self.limit.is_some() || self.question.total || self.listing.is_some())
    }

    /// Returns whether the job has a limit and bounds the bytes of a search without a limit too.
    fn limits_too(&self) -> bool
        ensures { result ≡ limits_too (wanted self.now) }
    {
        self.limit.is_some() && self.question.memory.is_some()
    }

    /// Returns whether the job asks for two things that don't go together.
    pub fn asks_both(&self) -> bool
        ensures { result ≡ asks_both (wanted self.now) }
    {
        self.states_too() || self.lists_too() || self.limits_too()
    }
}

/// Reads the arguments. If they ask for a job, only running out of memory can refuse it.
pub fn read_job<'a>(alloc: Global, words: &'a [&'a str]) -> Result<Job<'a>, Error>
    ensures job { IfOk result (λ job. wanted job ≡ job_of (texts words.entry.now)) }
    ensures law { FailsBy (fault_of outcomes_app (texts words.entry.now)) result }
{
    match values_given(alloc, &OUTCOMES, &[], words) {
        Ok(values) => Ok(job_by(&values)),
        Err(error) => Err(error),
    }
}

/// Returns the job that values ask for.
fn job_by<'a>(values: &Values<'a>) -> Job<'a>
    ensures { (rows : List Row) → AreValues rows values.now → wanted result ≡ wanted_in rows }
{
    Job {
        question: Question {
            most: values.most.unwrap_or(1_000_000),
            memory: values.memory,
            exact: values.exact,
            total: values.total,
            ends: values.ends,
            states: values.states,
        },
        limit: values.limit,
        listing: values.asked,
        file: values.file,
    }
}
