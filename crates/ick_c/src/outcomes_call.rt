//! The answer of `ick-outcomes` to arguments, over a file, a listing and an input in memory.
ghost use Rattle.std.specs.Prelude.{◌+◌, ◌<◌, ◌^◌};
ghost use Rattle.clap.specs.Walk.{texts};
ghost use Rattle.ick_job.specs.Serve.{IsStatus};
ghost use Rattle.ick_c.specs.OutcomesCall.{OutcomesOfBytes, ServesOutcomes};

use crate::arguments::arguments_in;
use crate::one_file::OneFile;
use ick_devices::{SliceSource, VecSink};
use ick_job::{Status, refuse_words};
use ick_outcomes_cli::serve_outcomes;
use std::alloc::Global;

/// Serves the arguments that the bytes hold, or says why they can't be read.
pub fn answer_outcomes(
    alloc: Global,
    bytes: &[u8],
    file: &[u8],
    listing: &[u8],
    input: &[u8],
    writer: &mut VecSink,
    errors: &mut VecSink,
) -> Status
    requires writer_sound { writer.old.failures + 1 < 2 ^ 64 }
    requires errors_sound { errors.old.failures + 1 < 2 ^ 64 }
    ensures served { OutcomesOfBytes bytes.now file.now listing.now input.now
        writer.old writer.new errors.old errors.new result }
    ensures status { IsStatus result }
{
    match arguments_in(alloc, bytes) {
        Ok(arguments) => outcomes_over_memory(
            alloc,
            arguments.as_slice(),
            file,
            listing,
            input,
            writer,
            errors,
        ),
        Err(fault) => refuse_words(fault, errors),
    }
}

/// Serves arguments. Each FILE has the bytes `file`, each LISTING has the bytes `listing`, and the
/// reader has `input`.
fn outcomes_over_memory(
    alloc: Global,
    arguments: &[&str],
    file: &[u8],
    listing: &[u8],
    input: &[u8],
    writer: &mut VecSink,
    errors: &mut VecSink,
) -> Status
    requires writer_sound { writer.old.failures + 1 < 2 ^ 64 }
    requires errors_sound { errors.old.failures + 1 < 2 ^ 64 }
    ensures served { ServesOutcomes (texts arguments.entry.now) file.entry.now listing.entry.now
        input.entry.now writer.old writer.new errors.old errors.new result }
    ensures status { IsStatus result }
{
    serve_outcomes(
        alloc,
        arguments,
        &mut OneFile::new(file),
        &mut OneFile::new(listing),
        &mut SliceSource::new(input),
        writer,
        errors,
    )
}
