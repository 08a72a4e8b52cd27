//! The answer to arguments that ask for no job.
ghost use Rattle.std.specs.Prelude.{◌≡◌, ◌+◌, ◌<◌, ◌^◌, ◌⊎◌, ℕ};
ghost use Rattle.clap.specs.Words.{kind_of};
ghost use Rattle.ick_job.specs.Notice.{notice_text};
ghost use Rattle.ick_job.specs.Serve.{Finishes, FinishesDue, IsDue, counts};
ghost use Rattle.ick_job.specs.Usage.{IsHelped, IsMistake, IsRefused, IsRequest};

use crate::job_end::JobEnd;
use crate::notice::Notice;
use crate::reporting::{finish, report};
use crate::status::Status;
use clap::Error;
use clap::error::ErrorKind;
use ick_devices::{ByteSink, write_whole};
use std::alloc::Global;

/// Answers arguments that ask for no job. The text of a mistake goes to the errors, and the text
/// of help goes to the writer.
pub fn answer_words<W: ByteSink, E: ByteSink>(
    alloc: Global,
    error: &Error,
    writer: &mut W,
    errors: &mut E,
) -> Status
    requires writer_sound { W.failed writer.old + 1 < 2 ^ 64 }
    requires errors_sound { E.failed errors.old + 1 < 2 ^ 64 }
    ensures usage { IsMistake (kind_of error.now)
        → (writer.new ≡ writer.old) × FinishesDue IsRefused
        E.told (E.failed errors.old) (E.failed errors.new)
        (E.written errors.old) (E.written errors.new) result }
    ensures help { IsRequest (kind_of error.now) → FinishesDue
        (IsHelped W.told (W.failed writer.old) (W.failed writer.new)
        (W.written writer.old) (W.written writer.new))
        E.told (E.failed errors.old) (E.failed errors.new)
        (E.written errors.old) (E.written errors.new) result }
    ensures either { ((writer.new ≡ writer.old) × FinishesDue IsRefused
        E.told (E.failed errors.old) (E.failed errors.new)
        (E.written errors.old) (E.written errors.new) result) ⊎ FinishesDue
        (IsHelped W.told (W.failed writer.old) (W.failed writer.new)
        (W.written writer.old) (W.written writer.new))
        E.told (E.failed errors.old) (E.failed errors.new)
        (E.written errors.old) (E.written errors.new) result }
    ensures said { (files : ℕ) → (reads : ℕ) → FinishesDue
        (IsDue (counts files reads (W.failed writer.old))
        (counts files reads (W.failed writer.new)))
        E.told (E.failed errors.old) (E.failed errors.new)
        (E.written errors.old) (E.written errors.new) result }
    ensures memory { kind_of error.now ≡ ErrorKind.OutOfMemory → (writer.new ≡ writer.old)
        × Finishes E.told 4 (notice_text Notice.OutOfMemory)
        (E.failed errors.old) (E.failed errors.new)
        (E.written errors.old) (E.written errors.new) result }
{
    if error.kind() == ErrorKind::OutOfMemory {
        return report(&JobEnd::NoMemory, errors);
    }
    let Ok(text) = error.to_string(alloc) else {
        return report(&JobEnd::NoMemory, errors);
    };
    if error.use_stderr() {
        return finish(64, text.as_bytes(), errors);
    }
    match write_whole(writer, text.as_bytes()) {
        Ok(()) => finish(0, &[], errors),
        Err(_) => report(&JobEnd::WriteFailed, errors),
    }
}
