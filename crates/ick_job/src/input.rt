//! What a job reads: its source, and the input of a listing of runs.
ghost use Rattle.std.specs.Prelude.{◌≡◌, ◌+◌, ◌<◌, ◌≤◌, ◌^◌, IfErr, IfOk};
ghost use Rattle.std.specs.Prelude.{drop, length, take, true};
ghost use Rattle.ick_source.specs.Refusals.{longest};
ghost use Rattle.ick_job.specs.JobEnd.{Leaves, LeavesStreams};
ghost use Rattle.ick_job.specs.Input.{EndsCut, EndsUnopened, EndsUnread, longest_input};

use crate::job_end::JobEnd;
use ick_devices::{ByteSource, Files, ReadFault, read_first};
use std::alloc::Global;

/// How many bytes the longest source has, and the longest input (this profile).
pub const LONGEST: usize = 1_048_576;

/// Reads a file, and at most one byte more than the longest source. Without the source it returns
/// how the job ends.
pub fn read_file<F: Files>(alloc: Global, name: &str, files: &mut F) -> Result<Vec<u8>, JobEnd>
    requires { F.failed files.old + 1 < 2 ^ 64 }
    ensures count { IfOk result (λ _. F.failed files.new ≡ F.failed files.old) }
    ensures front { F.told ≡ true → IfOk result (λ text.
        text.items ≡ take (longest + 1) (F.named files.old name.now)) }
    ensures leaves { IfErr result (λ job_end.
        Leaves job_end (F.failed files.old) (F.failed files.new) 0 0 0 0) }
    ensures unopened { IfErr result EndsUnopened }
{
    read_named(alloc, name, LONGEST + 1, files)
}

/// Reads the first `most` bytes of a file, or all its bytes if it has fewer. Without them it
/// returns how the job ends.
pub fn read_named<F: Files>(
    alloc: Global,
    name: &str,
    most: usize,
    files: &mut F,
) -> Result<Vec<u8>, JobEnd>
    requires { F.failed files.old + 1 < 2 ^ 64 }
    ensures count { IfOk result (λ _. F.failed files.new ≡ F.failed files.old) }
    ensures fits { IfOk result (λ text. length text.items ≤ most) }
    ensures front { F.told ≡ true → IfOk result (λ text.
        text.items ≡ take most (F.named files.old name.now)) }
    ensures leaves { IfErr result (λ job_end.
        Leaves job_end (F.failed files.old) (F.failed files.new) 0 0 0 0) }
    ensures unopened { IfErr result EndsUnopened }
{
    let Ok(()) = files.open_named(name) else {
        return Err(JobEnd::FileNotRead);
    };
    match read_first(alloc, files, most) {
        Ok(text) => Ok(text),
        Err(ReadFault::NoMemory) => Err(JobEnd::NoMemory),
        Err(ReadFault::Failed) => Err(JobEnd::FileNotRead),
    }
}

/// Reads a reader, and at most one byte more than the longest source. Without the bytes it returns
/// how the job ends.
pub fn read_front<R: ByteSource>(alloc: Global, reader: &mut R) -> Result<Vec<u8>, JobEnd>
    requires { R.failed reader.old + 1 < 2 ^ 64 }
    ensures count { IfOk result (λ _. R.failed reader.new ≡ R.failed reader.old) }
    ensures front { R.told ≡ true → IfOk result (λ text.
        text.items ≡ take (longest + 1) (R.left reader.old)) }
    ensures rest { R.told ≡ true → IfOk result (λ _.
        R.left reader.new ≡ drop (longest + 1) (R.left reader.old)) }
    ensures leaves { IfErr result (λ job_end.
        LeavesStreams job_end (R.failed reader.old) (R.failed reader.new) 0 0) }
    ensures cut { IfErr result EndsCut }
{
    match read_first(alloc, reader, LONGEST + 1) {
        Ok(text) => Ok(text),
        Err(ReadFault::NoMemory) => Err(JobEnd::NoMemory),
        Err(ReadFault::Failed) => Err(JobEnd::ReadFailed),
    }
}

/// Reads an input whole, and one byte more than the longest input if there is more. Without the
/// input it returns how the job ends.
pub fn read_input<R: ByteSource>(alloc: Global, reader: &mut R) -> Result<Vec<u8>, JobEnd>
    requires { R.failed reader.old + 1 < 2 ^ 64 }
    ensures count { IfOk result (λ _. R.failed reader.new ≡ R.failed reader.old) }
    ensures fits { IfOk result (λ input. length input.items ≤ longest_input) }
    ensures whole { R.told ≡ true → IfOk result (λ input. input.items ≡ R.left reader.old) }
    ensures rest { R.told ≡ true → IfOk result (λ _.
        R.left reader.new ≡ drop (longest_input + 1) (R.left reader.old)) }
    ensures leaves { IfErr result (λ job_end.
        LeavesStreams job_end (R.failed reader.old) (R.failed reader.new) 0 0) }
    ensures unread { R.told ≡ true → IfErr result (EndsUnread (R.left reader.old)) }
{
    match read_front(alloc, reader) {
        Ok(input) if input.len() <= LONGEST => Ok(input),
        Ok(_) => Err(JobEnd::InputTooLong),
        Err(job_end) => Err(job_end),
    }
}
