//! The arguments served over any devices.
ghost use Rattle.std.specs.Prelude.{◌+◌, ◌<◌, ◌^◌, IfErr, IfOk};
ghost use Rattle.ick_cli.specs.Program.{ick};
ghost use Rattle.ick_job.specs.Program.{RefusesUnread, ServesArguments, files_by, stream};
ghost use Rattle.ick_system.specs.Arguments.{after_name};

use ick_cli::serve;
use ick_devices::{ByteSink, ByteSource, Files};
use ick_job::{Status, WordsFault, refuse_words};
use ick_system::words_of;
use std::alloc::Global;

/// Answers the arguments that the system hands over, and returns the exit status. Arguments that
/// can't be read get their line, and files, reader and writer are unchanged.
pub fn answer<F: Files, R: ByteSource, W: ByteSink, E: ByteSink>(
    alloc: Global,
    arguments: Result<Vec<String>, WordsFault>,
    files: &mut F,
    reader: &mut R,
    writer: &mut W,
    errors: &mut E,
) -> Status
    requires files_sound { F.failed files.old + 1 < 2 ^ 64 }
    requires reader_sound { R.failed reader.old + 1 < 2 ^ 64 }
    requires writer_sound { W.failed writer.old + 1 < 2 ^ 64 }
    requires errors_sound { E.failed errors.old + 1 < 2 ^ 64 }
    ensures served { IfOk arguments (λ a. ServesArguments ick (after_name a.items)
        (files_by F.told F.failed F.named files.old files.new)
        (stream R.told R.failed R.left reader.old reader.new)
        (stream W.told W.failed W.written writer.old writer.new)
        (stream E.told E.failed E.written errors.old errors.new) result) }
    ensures unread { IfErr arguments (λ fault. RefusesUnread fault
        (files_by F.told F.failed F.named files.old files.new)
        (stream R.told R.failed R.left reader.old reader.new)
        (stream W.told W.failed W.written writer.old writer.new)
        (stream E.told E.failed E.written errors.old errors.new) result) }
{
    match arguments {
        Ok(arguments) => serve_arguments(alloc, &arguments, files, reader, writer, errors),
        Err(fault) => refuse_words(fault, errors),
    }
}

/// Serves all arguments after the program's own name, and returns the exit status. If memory runs
/// out for the arguments, files, reader and writer are unchanged.
pub fn serve_arguments<F: Files, R: ByteSource, W: ByteSink, E: ByteSink>(
    alloc: Global,
    arguments: &[String],
    files: &mut F,
    reader: &mut R,
    writer: &mut W,
    errors: &mut E,
) -> Status
    requires files_sound { F.failed files.old + 1 < 2 ^ 64 }
    requires reader_sound { R.failed reader.old + 1 < 2 ^ 64 }
    requires writer_sound { W.failed writer.old + 1 < 2 ^ 64 }
    requires errors_sound { E.failed errors.old + 1 < 2 ^ 64 }
    ensures { ServesArguments ick (after_name arguments.now)
        (files_by F.told F.failed F.named files.old files.new)
        (stream R.told R.failed R.left reader.old reader.new)
        (stream W.told W.failed W.written writer.old writer.new)
        (stream E.told E.failed E.written errors.old errors.new) result }
{
    match words_of(alloc, arguments) {
        Ok(words) => serve(alloc, words.as_slice(), files, reader, writer, errors),
        Err(_) => refuse_words(WordsFault::NoMemory, errors),
    }
}
