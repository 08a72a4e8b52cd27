//! The run that a job asks for, before anything is opened.

ghost use Rattle.std.specs.Prelude.{◌≡◌, IfErr, IfOk, option_map};
ghost use Rattle.ick_job.specs.JobEnd.{EndsByLine};
ghost use Rattle.ick_session.specs.Given.{given_by};
ghost use Rattle.ick_step_cli.specs.Job.{wanted};
ghost use Rattle.ick_step_cli.specs.Plan.{AreGivenBy, AreRefused, planned_by, with_choices};

use crate::words::Job;
use ick_job::{JobEnd, MOST_CHOICES, Notice, choices_of};
use ick_session::Given;
use std::alloc::Global;

/// The run that a job asks for.
#[derive(Drop)]
pub struct Plan<'a> {
    pub given: Given,
    pub limit: u32,
    pub input: Option<&'a str>,
    pub trace: bool,
}

/// Returns the run that a job asks for. Its choices are those of a text or of a seed, and not of
/// both.
pub fn plan_of<'a>(alloc: Global, job: &Job<'a>) -> Result<Plan<'a>, JobEnd>
    ensures given { IfOk result (λ plan.
        AreGivenBy (wanted job.now).choices (wanted job.now).seed (given_by plan.given)) }
    ensures ok { IfOk result (λ plan.
        planned_by plan ≡ with_choices (wanted job.now) (given_by plan.given)) }
    ensures err { IfErr result
        (EndsByLine (AreRefused (wanted job.now).choices (wanted job.now).seed)) }
{
    match given_choices(alloc, job.choices, job.seed) {
        Ok(given) => Ok(Plan {
            given,
            limit: job.limit,
            input: job.input,
            trace: job.trace,
        }),
        Err(job_end) => Err(job_end),
    }
}

/// Returns the choices that a text or a seed gives.
fn given_choices(alloc: Global, choices: Option<&str>, seed: Option<u64>) -> Result<Given, JobEnd>
    ensures ok { IfOk result (λ given.
        AreGivenBy (option_map (λ s. s.now) choices.entry) seed (given_by given)) }
    ensures err { IfErr result
        (EndsByLine (AreRefused (option_map (λ s. s.now) choices.entry) seed)) }
{
    match seed {
        None => match choices_of(alloc, choices, MOST_CHOICES) {
            Ok(choices) => Ok(Given::Listed(choices)),
            Err(job_end) => Err(job_end),
        },
        Some(seed) => match choices {
            None => Ok(Given::seeded(alloc, seed)),
            Some(_) => Err(JobEnd::usage(Notice::ChoicesAndSeed)),
        },
    }
}
