//! What a command becomes after its text of choices is read, and before anything else is.
ghost use Rattle.std.specs.Prelude.{◌≡◌, ◌≤◌, IfErr, IfOk, Some, length, option_map};
ghost use Rattle.ick_cli.specs.Job.{task_of};
ghost use Rattle.ick_job.specs.JobEnd.{EndsByLine};
ghost use Rattle.ick_cli.specs.Plan.{HasPlan, IsPlanned, IsUnplanned};

use crate::words::Subcommand;
use ick_job::{JobEnd, MOST_CHOICES, Notice, choices_of};
use ick_runs::Cursor;
use std::alloc::Global;

/// What is done with a program.
#[derive(Drop)]
pub enum Plan {
    /// Its statements are counted.
    Check,
    /// Its statements are listed.
    List,
    /// It is run.
    Execute(Runs),
}

/// Which runs of a program are made.
#[derive(Drop)]
pub enum Runs {
    /// The run with these choices, which are none if there is no cursor.
    Given {
        choices: Option<Cursor>,
        limit: u32,
    },
    /// The run with the choices that a seed draws.
    Drawn {
        seed: u64,
        limit: u32,
    },
    /// All runs, or those after the run of a cursor.
    Listed {
        from: Option<Cursor>,
        count: u32,
        limit: u32,
    },
}

/// Returns the plan of a command. A command without a plan ends by its line, and memory is said to
/// be out only if the command has a plan.
pub fn plan_of(alloc: Global, subcommand: &Subcommand<'_>) -> Result<Plan, JobEnd>
    ensures ok { IfOk result (IsPlanned (task_of subcommand.now)) }
    ensures err { IfErr result (EndsByLine (IsUnplanned (task_of subcommand.now))) }
    ensures memory { IfErr result (λ job_end. job_end ≡ JobEnd.NoMemory
        → HasPlan (task_of subcommand.now)) }
{
    match *subcommand {
        Subcommand::Check => Ok(Plan::Check),
        Subcommand::List => Ok(Plan::List),
        Subcommand::Run {
            choices,
            seed,
            limit,
        } => plan_run(alloc, choices, seed, limit),
        Subcommand::Runs { from, count, limit } => match choices_of(alloc, from, limit) {
            Ok(from) => Ok(Plan::Execute(Runs::Listed { from, count, limit })),
            Err(job_end) => Err(job_end),
        },
    }
}

/// Returns the plan of a run, which has choices or a seed, and not both.
fn plan_run(
    alloc: Global,
    choices: Option<&str>,
    seed: Option<u64>,
    limit: u32,
) -> Result<Plan, JobEnd>
    ensures ok { IfOk result (IsPlanned (task_of (Subcommand.Run choices.entry seed limit))) }
    ensures err { IfErr result
        (EndsByLine (IsUnplanned (task_of (Subcommand.Run choices.entry seed limit)))) }
    ensures memory { IfErr result (λ job_end. job_end ≡ JobEnd.NoMemory
        → HasPlan (task_of (Subcommand.Run choices.entry seed limit))) }
{
    match seed {
        None => match choices_of(alloc, choices, MOST_CHOICES) {
            Ok(choices) => Ok(Plan::Execute(Runs::Given { choices, limit })),
            Err(job_end) => Err(job_end),
        },
        Some(seed) => match choices {
            None => Ok(Plan::Execute(Runs::Drawn { seed, limit })),
            Some(_) => Err(JobEnd::usage(Notice::ChoicesAndSeed)),
        },
    }
}
