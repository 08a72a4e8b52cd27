//! The answer of `ick-step` to arguments, over a file, an input and commands in memory.
ghost use Rattle.std.specs.Prelude.{◌+◌, ◌<◌, ◌^◌};
ghost use Rattle.clap.specs.Walk.{texts};
ghost use Rattle.ick_job.specs.Serve.{IsStatus};
ghost use Rattle.ick_c.specs.StepCall.{ServesStep, StepOfBytes};

use crate::arguments::arguments_in;
use crate::one_file::OneFile;
use ick_devices::{SliceSource, VecSink};
use ick_job::{Status, refuse_words};
use ick_step_cli::serve_step;
use std::alloc::Global;

/// Serves the arguments that the bytes hold, or says why they can't be read.
pub fn answer_step(
    alloc: Global,
    bytes: &[u8],
    file: &[u8],
    input: &[u8],
    commands: &[u8],
    writer: &mut VecSink,
    errors: &mut VecSink,
) -> Status
    requires writer_sound { writer.old.failures + 1 < 2 ^ 64 }
    requires errors_sound { errors.old.failures + 1 < 2 ^ 64 }
    ensures served { StepOfBytes bytes.now file.now input.now commands.now
        writer.old writer.new errors.old errors.new result }
    ensures status { IsStatus result }
{
    match arguments_in(alloc, bytes) {
        Ok(arguments) => step_over_memory(
            alloc,
            arguments.as_slice(),
            file,
            input,
            commands,
            writer,
            errors,
        ),
        Err(fault) => refuse_words(fault, errors),
    }
}

/// Serves arguments. Each FILE has the bytes `file`, each INPUT has the bytes `input`, and the
/// reader has `commands`.
fn step_over_memory(
    alloc: Global,
    arguments: &[&str],
    file: &[u8],
    input: &[u8],
    commands: &[u8],
    writer: &mut VecSink,
    errors: &mut VecSink,
) -> Status
    requires writer_sound { writer.old.failures + 1 < 2 ^ 64 }
    requires errors_sound { errors.old.failures + 1 < 2 ^ 64 }
    ensures served { ServesStep (texts arguments.entry.now) file.entry.now input.entry.now
        commands.entry.now writer.old writer.new errors.old errors.new result }
    ensures status { IsStatus result }
{
    serve_step(
        alloc,
        arguments,
        &mut OneFile::new(file),
        &mut OneFile::new(input),
        false,
        &mut SliceSource::new(commands),
        writer,
        errors,
    )
}
