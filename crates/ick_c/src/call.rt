//! The answer to arguments, over a file and an input in memory.
ghost use Rattle.std.specs.Prelude.{◌+◌, ◌<◌, ◌^◌};
ghost use Rattle.clap.specs.Walk.{texts};
ghost use Rattle.ick_job.specs.Serve.{IsStatus};
ghost use Rattle.ick_c.specs.Call.{Serves, ServesBytes};

use crate::arguments::arguments_in;
use crate::one_file::OneFile;
use ick_cli::{one_answer, serve};
use ick_devices::{SliceSource, VecSink};
use ick_job::{Status, refuse_words};
use std::alloc::Global;

/// Serves the arguments that the bytes hold, or says why they can't be read.
pub fn answer(
    alloc: Global,
    bytes: &[u8],
    file: &[u8],
    input: &[u8],
    writer: &mut VecSink,
    errors: &mut VecSink,
) -> Status
    requires writer_sound { writer.old.failures + 1 < 2 ^ 64 }
    requires errors_sound { errors.old.failures + 1 < 2 ^ 64 }
    ensures served { ServesBytes bytes.now file.now input.now
        writer.old writer.new errors.old errors.new result }
    ensures status { IsStatus result }
{
    one_answer();
    match arguments_in(alloc, bytes) {
        Ok(arguments) => {
            serve_over_memory(alloc, arguments.as_slice(), file, input, writer, errors)
        }
        Err(fault) => refuse_words(fault, errors),
    }
}

/// Serves arguments. Each file has the bytes `file`, and the reader has `input`.
fn serve_over_memory(
    alloc: Global,
    arguments: &[&str],
    file: &[u8],
    input: &[u8],
    writer: &mut VecSink,
    errors: &mut VecSink,
) -> Status
    requires writer_sound { writer.old.failures + 1 < 2 ^ 64 }
    requires errors_sound { errors.old.failures + 1 < 2 ^ 64 }
    ensures served { Serves (texts arguments.entry.now) file.entry.now input.entry.now
        writer.old writer.new errors.old errors.new result }
    ensures status { IsStatus result }
{
    serve(
        alloc,
        arguments,
        &mut OneFile::new(file),
        &mut SliceSource::new(input),
        writer,
        errors,
    )
}
