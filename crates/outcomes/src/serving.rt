//! The arguments served over any devices.
ghost use Rattle.std.specs.Prelude.{◌+◌, ◌<◌, ◌^◌, IfErr, IfOk};
ghost use Rattle.ick_chain.specs.Progress.{OnlyShows};
ghost use Rattle.ick_job.specs.Program.{RefusesUnread, ServesArguments, both, files_by, stream};
ghost use Rattle.ick_outcomes_cli.specs.Behind.{Behind};
ghost use Rattle.ick_outcomes_cli.specs.Program.{outcomes};
ghost use Rattle.ick_system.specs.Arguments.{after_name};

use ick_chain::Progress;
use ick_devices::{ByteSink, ByteSource, Files};
use ick_job::{Status, WordsFault, refuse_words};
use ick_outcomes_cli::serve_outcomes;
use ick_system::words_of;
use std::alloc::Global;

/// Answers the arguments that the system hands over, and returns the exit status. Arguments that
/// can't be read get their line, and files, listings, reader and writer are unchanged.
pub fn answer<F: Files, L: Files, R: ByteSource, W: ByteSink, E: Progress>(
    alloc: Global,
    arguments: Result<Vec<String>, WordsFault>,
    files: &mut F,
    listings: &mut L,
    reader: &mut R,
    writer: &mut W,
    errors: &mut E,
) -> Status
    requires files_sound { F.failed files.old + 1 < 2 ^ 64 }
    requires listings_sound { L.failed listings.old + 1 < 2 ^ 64 }
    requires reader_sound { R.failed reader.old + 1 < 2 ^ 64 }
    requires writer_sound { W.failed writer.old + 1 < 2 ^ 64 }
    requires errors_sound { E.failed errors.old + 1 < 2 ^ 64 }
    ensures served { IfOk arguments (λ a. Behind
        (OnlyShows E.told E.failed E.written E.shows errors.old) (λ middle.
        ServesArguments outcomes (after_name a.items)
        (both (files_by F.told F.failed F.named files.old files.new)
        (files_by L.told L.failed L.named listings.old listings.new))
        (stream R.told R.failed R.left reader.old reader.new)
        (stream W.told W.failed W.written writer.old writer.new)
        (stream E.told E.failed E.written middle errors.new) result)) }
    ensures unread { IfErr arguments (λ fault. RefusesUnread fault
        (both (files_by F.told F.failed F.named files.old files.new)
        (files_by L.told L.failed L.named listings.old listings.new))
        (stream R.told R.failed R.left reader.old reader.new)
        (stream W.told W.failed W.written writer.old writer.new)
        (stream E.told E.failed E.written errors.old errors.new) result) }
{
    match arguments {
        Ok(arguments) => {
            serve_arguments(alloc, &arguments, files, listings, reader, writer, errors)
        }
        Err(fault) => refuse_words(fault, errors),
    }
}

/// Serves all arguments after the program's own name, and returns the exit status. If memory runs
/// out for the arguments, files, listings, reader and writer are unchanged.
pub fn serve_arguments<F: Files, L: Files, R: ByteSource, W: ByteSink, E: Progress>(
    alloc: Global,
    arguments: &[String],
    files: &mut F,
    listings: &mut L,
    reader: &mut R,
    writer: &mut W,
    errors: &mut E,
) -> Status
    requires files_sound { F.failed files.old + 1 < 2 ^ 64 }
    requires listings_sound { L.failed listings.old + 1 < 2 ^ 64 }
    requires reader_sound { R.failed reader.old + 1 < 2 ^ 64 }
    requires writer_sound { W.failed writer.old + 1 < 2 ^ 64 }
    requires errors_sound { E.failed errors.old + 1 < 2 ^ 64 }
    ensures { Behind (OnlyShows E.told E.failed E.written E.shows errors.old) (λ middle.
        ServesArguments outcomes (after_name arguments.now)
        (both (files_by F.told F.failed F.named files.old files.new)
        (files_by L.told L.failed L.named listings.old listings.new))
        (stream R.told R.failed R.left reader.old reader.new)
        (stream W.told W.failed W.written writer.old writer.new)
        (stream E.told E.failed E.written middle errors.new) result) }
{
    match words_of(alloc, arguments) {
        Ok(words) => serve_outcomes(
            alloc,
            words.as_slice(),
            files,
            listings,
            reader,
            writer,
            errors,
        ),
        Err(_) => refuse_words(WordsFault::NoMemory, errors),
    }
}
