//! How the work ends, before its error text is written.

ghost use Rattle.std.specs.Prelude.{◌≡◌, ◌+◌, ◌<◌, ◌^◌};
ghost use Rattle.ick_job.specs.Serve.{Finishes};
ghost use Rattle.ick_outcomes_cli.specs.OutcomesEnd.{outcomes_end_status, outcomes_end_text};

use ick_devices::ByteSink;
use ick_job::{JobEnd, Notice, Status, finish};

/// How the work ends: by an end that `ick` has too, or by a refusal, which has a line and status 4
/// although no device failed. The line of an unfinished search names the command to try.
#[derive(Drop)]
pub enum OutcomesEnd {
    By(JobEnd),
    Refused(Notice),
    Unfinished(Vec<u8>),
}

impl OutcomesEnd {
    /// Returns the exit status.
    fn status(&self) -> u8
        ensures { result ≡ outcomes_end_status self.now }
    {
        match self {
            OutcomesEnd::By(job_end) => job_end.status(),
            _ => 4,
        }
    }

    /// Returns the error text.
    fn text(&self) -> &[u8]
        ensures { result.now ≡ outcomes_end_text self.now }
    {
        match self {
            OutcomesEnd::By(job_end) => job_end.text(),
            OutcomesEnd::Refused(line) => line.text(),
            OutcomesEnd::Unfinished(line) => line.as_slice(),
        }
    }

    /// Writes the error text, and returns the status.
    pub fn report<E: ByteSink>(&self, errors: &mut E) -> Status
        requires { E.failed errors.old + 1 < 2 ^ 64 }
        ensures { Finishes E.told (outcomes_end_status self.now) (outcomes_end_text self.now)
            (E.failed errors.old) (E.failed errors.new)
            (E.written errors.old) (E.written errors.new) result }
    {
        finish(self.status(), self.text(), errors)
    }
}
