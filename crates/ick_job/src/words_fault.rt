//! Arguments that can't be read: why, and the answer to them.
ghost use Rattle.std.specs.Prelude.{◌+◌, ◌<◌, ◌^◌};
ghost use Rattle.ick_job.specs.Notice.{notice_text};
ghost use Rattle.ick_job.specs.Serve.{Finishes};
ghost use Rattle.ick_job.specs.Usage.{words_notice, words_status};

use crate::notice::Notice;
use crate::reporting::finish;
use crate::status::Status;
use ick_devices::ByteSink;

/// Why the arguments can't be read.
#[derive(Clone, Copy, Debug)]
pub enum WordsFault {
    /// Memory ran out.
    NoMemory,
    /// An argument is no text.
    NotText,
}

/// Answers arguments that can't be read: 4 if memory ran out, and else 64, with its line on
/// `errors` (this profile). The count of failures of `errors` must be below its greatest value.
pub fn refuse_words<E: ByteSink>(fault: WordsFault, errors: &mut E) -> Status
    requires { E.failed errors.old + 1 < 2 ^ 64 }
    ensures { Finishes E.told (words_status fault) (notice_text (words_notice fault))
        (E.failed errors.old) (E.failed errors.new)
        (E.written errors.old) (E.written errors.new) result }
{
    match fault {
        WordsFault::NoMemory => finish(4, Notice::OutOfMemory.text(), errors),
        WordsFault::NotText => finish(64, Notice::WordsNotRead.text(), errors),
    }
}
