//! How work ends with a run that has stopped.
ghost use Rattle.std.specs.Prelude.{◌≡◌, IfOk, List, ℕ, string_bytes};
ghost use Rattle.ick_job.specs.JobEnd.{EndsBy};
ghost use Rattle.ick_job.specs.Stopped.{EndsStopped};

use crate::job_end::JobEnd;
use crate::notice::Message;
use std::alloc::{AllocError, Global};

/// How a run stopped.
#[derive(Drop)]
pub enum Stop {
    /// The program gave up.
    GiveUp,
    /// The run has a fault, with this message.
    Fault(Vec<u8>),
    /// The run came to its limit.
    Limit,
    /// The run wants a choice that isn't given.
    Wants,
}

/// Returns how work ends with a run that has stopped after so many steps, and whose output is
/// written. The error text is the message of the fault, or a line with the number of steps, or
/// empty.
pub fn stopped_run(alloc: Global, stop: Stop, steps: u32) -> JobEnd
    ensures { EndsStopped stop steps result }
{
    match stop {
        Stop::GiveUp => JobEnd::Answered {
            status: 0,
            message: Message::Nothing,
        },
        Stop::Fault(message) => JobEnd::Answered {
            status: 1,
            message: Message::Text(message),
        },
        Stop::Limit => cut_short(format!(in alloc; "LIMIT REACHED AFTER {steps} STEPS\n")),
        Stop::Wants => cut_short(format!(in alloc; "CHOICE WANTED AFTER {steps} STEPS\n")),
    }
}

/// Returns how work ends with a run that was cut short, as a line says.
fn cut_short(line: Result<String, AllocError>) -> JobEnd
    ensures { (text : List ℕ) → IfOk line (λ l. string_bytes l ≡ text) → EndsBy 3 text result }
{
    match line {
        Ok(line) => JobEnd::Answered {
            status: 3,
            message: Message::Text(line.into_bytes()),
        },
        Err(AllocError) => JobEnd::NoMemory,
    }
}
