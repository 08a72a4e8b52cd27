//! The answer of `ick-stages` to arguments, over a file and an input in memory.
ghost use Rattle.std.specs.Prelude.{◌+◌, ◌<◌, ◌^◌};
ghost use Rattle.clap.specs.Walk.{texts};
ghost use Rattle.ick_job.specs.Serve.{IsStatus};
ghost use Rattle.ick_c.specs.StagesCall.{ServesStages, StagesOfBytes};

use crate::arguments::arguments_in;
use crate::one_file::OneFile;
use ick_devices::{SliceSource, VecSink};
use ick_job::{Status, refuse_words};
use ick_stages_cli::serve_stages;
use std::alloc::Global;

/// Serves the arguments that the bytes hold, or says why they can't be read.
pub fn answer_stages(
    alloc: Global,
    bytes: &[u8],
    file: &[u8],
    input: &[u8],
    writer: &mut VecSink,
    errors: &mut VecSink,
) -> Status
    requires writer_sound { writer.old.failures + 1 < 2 ^ 64 }
    requires errors_sound { errors.old.failures + 1 < 2 ^ 64 }
    ensures served { StagesOfBytes bytes.now file.now input.now
        writer.old writer.new errors.old errors.new result }
    ensures status { IsStatus result }
{
    match arguments_in(alloc, bytes) {
        Ok(arguments) => {
            stages_over_memory(alloc, arguments.as_slice(), file, input, writer, errors)
        }
        Err(fault) => refuse_words(fault, errors),
    }
}

/// Serves arguments. Each file has the bytes `file`, and the reader has `input`.
fn stages_over_memory(
    alloc: Global,
    arguments: &[&str],
    file: &[u8],
    input: &[u8],
    writer: &mut VecSink,
    errors: &mut VecSink,
) -> Status
    requires writer_sound { writer.old.failures + 1 < 2 ^ 64 }
    requires errors_sound { errors.old.failures + 1 < 2 ^ 64 }
    ensures served { ServesStages (texts arguments.entry.now) file.entry.now input.entry.now
        writer.old writer.new errors.old errors.new result }
    ensures status { IsStatus result }
{
    serve_stages(
        alloc,
        arguments,
        &mut OneFile::new(file),
        &mut SliceSource::new(input),
        writer,
        errors,
    )
}
