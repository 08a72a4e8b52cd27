//! The whole of the program over its devices.

ghost use Rattle.std.specs.Prelude.{◌+◌, ◌<◌, ◌^◌};
ghost use Rattle.clap.specs.Walk.{texts};
ghost use Rattle.ick_job.specs.Program.{ServesArguments, both, files_by, stream};
ghost use Rattle.ick_step_cli.specs.Program.{step};

use crate::dispatch::perform;
use crate::words::read_job;
use ick_devices::{ByteSink, ByteSource, Files};
use ick_job::{Status, answer_words, report};
use std::alloc::Global;

/// Does the job that the arguments ask for, and returns the exit status.
///
/// The arguments are without the program's own name. If they name a file, `files` opens it, its
/// bytes are the source, and `reader` has the commands. Without a file the source comes from
/// `reader`, and there are no commands. If they name an input, `inputs` opens it, after the source
/// compiles. The answers go to `writer`, each before the next command is read. The text of a
/// refusal or a failure goes to `errors`, after the output. The arguments, the statuses and the
/// texts are this profile's.
///
/// If the commands are typed at a `terminal`, a prompt is written before each line is read, and an
/// empty line repeats the last one.
///
/// The counts of failures of all devices must be below their greatest values.
pub fn serve_step<F: Files, I: Files, R: ByteSource, W: ByteSink, E: ByteSink>(
    alloc: Global,
    words: &[&str],
    files: &mut F,
    inputs: &mut I,
    terminal: bool,
    reader: &mut R,
    writer: &mut W,
    errors: &mut E,
) -> Status
    requires files_sound { F.failed files.old + 1 < 2 ^ 64 }
    requires inputs_sound { I.failed inputs.old + 1 < 2 ^ 64 }
    requires reader_sound { R.failed reader.old + 1 < 2 ^ 64 }
    requires writer_sound { W.failed writer.old + 1 < 2 ^ 64 }
    requires errors_sound { E.failed errors.old + 1 < 2 ^ 64 }
    ensures { ServesArguments (step terminal) (texts words.entry.now)
        (both (files_by F.told F.failed F.named files.old files.new)
        (files_by I.told I.failed I.named inputs.old inputs.new))
        (stream R.told R.failed R.left reader.old reader.new)
        (stream W.told W.failed W.written writer.old writer.new)
        (stream E.told E.failed E.written errors.old errors.new) result }
{
    match read_job(alloc, words) {
        Ok(job) => {
            let job_end = perform(alloc, &job, files, inputs, terminal, reader, writer);
            report(&job_end, errors)
        }
        Err(error) => answer_words(alloc, &error, writer, errors),
    }
}
