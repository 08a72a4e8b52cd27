//! `ick run`: the choices of a run, and how the work ends with it.
ghost use Rattle.std.specs.Prelude.{◌≡◌, IfErr, [], ℕ, unwrap_or};
ghost use Rattle.ick_job.specs.JobEnd.{Comes};
ghost use Rattle.ick_job.specs.Stopped.{stopped_status, stopped_text};
ghost use Rattle.ick_cli.specs.Stopped.{EndsAs, kind_status, kind_text};

use ick_job::{JobEnd, Stop, stopped_run};
use ick_machine::EndKind;
use ick_runs::{Cursor, RunsError, Streamed};
use std::alloc::Global;

/// Returns the choices of a cursor, which are none without a cursor.
pub fn choices_in(cursor: &Option<Cursor>) -> &[bool]
    ensures { result.now ≡ unwrap_or cursor.now [] }
{
    match cursor {
        Some(cursor) => cursor.choices(),
        None => &[],
    }
}

/// Returns how the work ends with a run, whose output is written.
pub fn job_end_of(alloc: Global, ran: Result<Streamed, RunsError>) -> JobEnd
    requires { IfErr ran Comes }
    ensures { EndsAs ran result }
{
    match ran {
        Ok(streamed) => {
            let stop = stop_of(streamed.end, streamed.message);
            stopped_run(alloc, stop, streamed.steps)
        }
        Err(error) => JobEnd::refused(error),
    }
}

/// Returns how a run stopped, by its end and the message of its fault.
fn stop_of(end: EndKind, message: Vec<u8>) -> Stop
    ensures status { stopped_status result ≡ kind_status end }
    ensures text { (steps : ℕ) → stopped_text result steps ≡ kind_text end message.items steps }
{
    match end {
        EndKind::GiveUp => Stop::GiveUp,
        EndKind::Fault(_, _) => Stop::Fault(message),
        EndKind::Limit => Stop::Limit,
        EndKind::Wants => Stop::Wants,
    }
}
