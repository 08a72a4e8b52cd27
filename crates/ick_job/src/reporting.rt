//! The error text and the status at the end of a call.
ghost use Rattle.std.specs.Prelude.{◌≡◌, ◌+◌, ◌<◌, ◌^◌};
ghost use Rattle.ick_job.specs.JobEnd.{job_end_status, job_end_text};
ghost use Rattle.ick_job.specs.Serve.{Finishes};

use crate::job_end::JobEnd;
use crate::status::Status;
use ick_devices::{ByteSink, write_whole};

/// Writes the error text of a job's end, and returns its status.
pub fn report<E: ByteSink>(job_end: &JobEnd, errors: &mut E) -> Status
    requires { E.failed errors.old + 1 < 2 ^ 64 }
    ensures { Finishes E.told (job_end_status job_end.now) (job_end_text job_end.now)
        (E.failed errors.old) (E.failed errors.new)
        (E.written errors.old) (E.written errors.new) result }
{
    finish(job_end.status(), job_end.text(), errors)
}

/// Writes an error text, and returns the status, or 4 if the text could not be written.
pub fn finish<E: ByteSink>(status: u8, text: &[u8], errors: &mut E) -> Status
    requires { E.failed errors.old + 1 < 2 ^ 64 }
    ensures { Finishes E.told status text.now
        (E.failed errors.old) (E.failed errors.new)
        (E.written errors.old) (E.written errors.new) result }
{
    match write_whole(errors, text) {
        Ok(()) => Status { code: status },
        Err(_) => Status { code: 4 },
    }
}
