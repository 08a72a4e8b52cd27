//! The whole of the program over its devices.

ghost use Rattle.std.specs.Prelude.{◌+◌, ◌<◌, ◌^◌};
ghost use Rattle.clap.specs.Walk.{texts};
ghost use Rattle.ick_chain.specs.Progress.{OnlyShows};
ghost use Rattle.ick_job.specs.Program.{ServesArguments, both, files_by, stream};
ghost use Rattle.ick_outcomes_cli.specs.Behind.{Behind};
ghost use Rattle.ick_outcomes_cli.specs.Program.{outcomes};

use crate::dispatch::perform;
use crate::words::read_job;
use ick_chain::Progress;
use ick_devices::{ByteSink, ByteSource, Files};
use ick_job::{Status, answer_words};
use std::alloc::Global;

/// Does the job that the arguments ask for, and returns the exit status.
///
/// The arguments are without the program's own name. If they name a file, `files` opens it, its
/// bytes are the source, and `reader` has the input, which is read whole if the source compiles.
/// Without a file the source comes from `reader`, and the input is empty. If they name a listing,
/// `listings` opens it, after the input is read. The output goes to `writer`, and nothing is
/// written before all of it is found. The text of a refusal or a failure goes to `errors`, after
/// the output. Reports of long work go to `errors` in front of it. They are lines of reports, and
/// there are none if `errors` doesn't show them.
/// The arguments, the statuses and the texts are this profile's.
///
/// The counts of failures of all devices must be below their greatest values.
pub fn serve_outcomes<F: Files, L: Files, R: ByteSource, W: ByteSink, E: Progress>(
    alloc: Global,
    words: &[&str],
    files: &mut F,
    listings: &mut L,
    reader: &mut R,
    writer: &mut W,
    errors: &mut E,
) -> Status
    requires files_sound { F.failed files.old + 1 < 2 ^ 64 }
    requires listings_sound { L.failed listings.old + 1 < 2 ^ 64 }
    requires reader_sound { R.failed reader.old + 1 < 2 ^ 64 }
    requires writer_sound { W.failed writer.old + 1 < 2 ^ 64 }
    requires errors_sound { E.failed errors.old + 1 < 2 ^ 64 }
    ensures { Behind (OnlyShows E.told E.failed E.written E.shows errors.old) (λ middle.
        ServesArguments outcomes (texts words.entry.now)
        (both (files_by F.told F.failed F.named files.old files.new)
        (files_by L.told L.failed L.named listings.old listings.new))
        (stream R.told R.failed R.left reader.old reader.new)
        (stream W.told W.failed W.written writer.old writer.new)
        (stream E.told E.failed E.written middle errors.new) result) }
{
    match read_job(alloc, words) {
        Ok(job) => {
            let outcomes_end = perform(alloc, &job, files, listings, reader, writer, errors);
            outcomes_end.report(errors)
        }
        Err(error) => answer_words(alloc, &error, writer, errors),
    }
}
