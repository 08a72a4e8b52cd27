//! The exit status of a program, in the system's form.

ghost use Rattle.std.specs.Prelude.{◌≡◌};
ghost use Rattle.std.specs.Process.{exit_status};

use ick_job::Status;
use std::process::ExitCode;

/// Returns a status in the system's form.
pub fn exit_code(status: Status) -> ExitCode
    ensures { exit_status result ≡ status }
{
    ExitCode::from(status.code())
}
