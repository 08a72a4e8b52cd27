//! The whole of the program over its devices.

ghost use Rattle.std.specs.Prelude.{◌+◌, ◌<◌, ◌^◌};
ghost use Rattle.clap.specs.Walk.{texts};
ghost use Rattle.ick_job.specs.Program.{ServesArguments, files_by, stream};
ghost use Rattle.ick_stages_cli.specs.Program.{stages};

use crate::dispatch::perform;
use crate::words::read_job;
use ick_devices::{ByteSink, ByteSource, Files};
use ick_job::{Status, answer_words, report};
use std::alloc::Global;

/// Does the job that the arguments ask for, and returns the exit status.
///
/// The arguments are without the program's own name. If they name a file, `files` opens it, and its
/// bytes are the source. Without a file the source comes from `reader`. The output goes to
/// `writer`, the lines of each statement as soon as they are made. The text of a refusal or a
/// failure goes to `errors`, after the output. The arguments, the statuses and the texts are this
/// profile's.
///
/// The counts of failures of all devices must be below their greatest values.
pub fn serve_stages<F: Files, R: ByteSource, W: ByteSink, E: ByteSink>(
    alloc: Global,
    words: &[&str],
    files: &mut F,
    reader: &mut R,
    writer: &mut W,
    errors: &mut E,
) -> Status
    requires files_sound { F.failed files.old + 1 < 2 ^ 64 }
    requires reader_sound { R.failed reader.old + 1 < 2 ^ 64 }
    requires writer_sound { W.failed writer.old + 1 < 2 ^ 64 }
    requires errors_sound { E.failed errors.old + 1 < 2 ^ 64 }
    ensures { ServesArguments stages (texts words.entry.now)
        (files_by F.told F.failed F.named files.old files.new)
        (stream R.told R.failed R.left reader.old reader.new)
        (stream W.told W.failed W.written writer.old writer.new)
        (stream E.told E.failed E.written errors.old errors.new) result }
{
    match read_job(alloc, words) {
        Ok(job) => {
            let job_end = perform(alloc, &job, files, reader, writer);
            report(&job_end, errors)
        }
        Err(error) => answer_words(alloc, &error, writer, errors),
    }
}
