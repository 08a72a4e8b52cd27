//! The command lines of `ick`, `ick-outcomes`, `ick-step` and `ick-stages` for programs in C. One
//! call takes arguments, files and an input in memory, and gives output, error text and exit
//! status.
//!
//! - `arguments`: the arguments that bytes hold
//! - `one_file`: a file in memory
//! - `call`: the answer of `ick` to arguments
//! - `outcomes_call`: the answer of `ick-outcomes`
//! - `step_call`: the answer of `ick-step`
//! - `stages_call`: the answer of `ick-stages`
//! - `room`: the front of a text, in a caller's memory
//! - `laws`: bytes hold at most one list of arguments
#![tactic(auto)]

ghost use Rattle.std.specs.Prelude.{◌≡◌, length};
ghost use Rattle.ick_devices.specs.Written.{Written};
ghost use Rattle.ick_job.specs.Serve.{IsStatus};
ghost use Rattle.ick_c.specs.Call.{ServesBytes, nothing};
ghost use Rattle.ick_c.specs.OutcomesCall.{OutcomesOfBytes};
ghost use Rattle.ick_c.specs.Room.{filled};
ghost use Rattle.ick_c.specs.StagesCall.{StagesOfBytes};
ghost use Rattle.ick_c.specs.StepCall.{StepOfBytes};

mod arguments;
mod call;
mod laws;
mod one_file;
mod outcomes_call;
mod room;
mod stages_call;
mod step_call;

use call::answer;
use ick_devices::VecSink;
pub use laws::one_list;
use outcomes_call::answer_outcomes;
use room::fill;
use stages_call::answer_stages;
use std::alloc::Global;
use step_call::answer_step;

/// The lengths of the two texts that a call wrote, in bytes.
#[repr(C)]
#[derive(Clone, Copy)]
pub struct Lengths {
    pub output: usize,
    pub errors: usize,
}

/// Copies the fronts of the texts that a call wrote into a caller's memory, as much as there is
/// room, and says how long the texts are.
fn hand_over(
    writer: &VecSink,
    said: &VecSink,
    output: &mut [u8],
    errors: &mut [u8],
    lengths: &mut Lengths,
)
    ensures output { output.new ≡ filled writer.now.bytes output.old }
    ensures output_length { lengths.new.output ≡ length writer.now.bytes }
    ensures errors { errors.new ≡ filled said.now.bytes errors.old }
    ensures errors_length { lengths.new.errors ≡ length said.now.bytes }
{
    let output_length = fill(output, writer.bytes());
    let errors_length = fill(errors, said.bytes());
    *lengths = Lengths {
        output: output_length,
        errors: errors_length,
    };
}

/// Does what the program `ick` does with these arguments, and returns the exit status. Each file
/// has the bytes `file`, and standard input has the bytes `input`.
///
/// The program's own name is none of the arguments. A byte 0 follows each of them. If the last byte
/// isn't 0, or an argument is no text in UTF-8, the error text is `WORDS NOT READ` and the status
/// 64. `output` gets the front of what `ick` writes on standard output, and `errors` the front of
/// what it writes on standard error, as much as there is room. The rest of the room is unchanged.
/// `lengths` says how long the whole texts are.
#[unsafe(no_mangle)]
pub extern "C" fn ick_serve(
    alloc: Global,
    arguments: &[u8],
    file: &[u8],
    input: &[u8],
    output: &mut [u8],
    errors: &mut [u8],
    lengths: &mut Lengths,
) -> u8
    ensures served { (writer : Written) × (said : Written)
        × (output.new ≡ filled writer.bytes output.old)
        × (lengths.new.output ≡ length writer.bytes)
        × (errors.new ≡ filled said.bytes errors.old)
        × (lengths.new.errors ≡ length said.bytes)
        × ServesBytes arguments.now file.now input.now nothing writer nothing said result }
    ensures status { IsStatus result }
{
    let mut writer = VecSink::new(alloc);
    let mut said = VecSink::new(alloc);
    let status = answer(alloc, arguments, file, input, &mut writer, &mut said);
    hand_over(&writer, &said, output, errors, lengths);
    status.code()
}

/// Does what the program `ick-outcomes` does with these arguments, and returns the exit status.
/// Each FILE has the bytes `file`, each LISTING has the bytes `listing`, and standard input has the
/// bytes `input`. The rest is as for `ick_serve`.
#[unsafe(no_mangle)]
pub extern "C" fn ick_outcomes_serve(
    alloc: Global,
    arguments: &[u8],
    file: &[u8],
    listing: &[u8],
    input: &[u8],
    output: &mut [u8],
    errors: &mut [u8],
    lengths: &mut Lengths,
) -> u8
    ensures served { (writer : Written) × (said : Written)
        × (output.new ≡ filled writer.bytes output.old)
        × (lengths.new.output ≡ length writer.bytes)
        × (errors.new ≡ filled said.bytes errors.old)
        × (lengths.new.errors ≡ length said.bytes)
        × OutcomesOfBytes arguments.now file.now listing.now input.now nothing writer nothing said
        result }
    ensures status { IsStatus result }
{
    let mut writer = VecSink::new(alloc);
    let mut said = VecSink::new(alloc);
    let status = answer_outcomes(
        alloc,
        arguments,
        file,
        listing,
        input,
        &mut writer,
        &mut said,
    );
    hand_over(&writer, &said, output, errors, lengths);
    status.code()
}

/// Does what the program `ick-stages` does with these arguments, and returns the exit status. Each
/// file has the bytes `file`, and standard input has the bytes `input`. The rest is as for
/// `ick_serve`.
#[unsafe(no_mangle)]
pub extern "C" fn ick_stages_serve(
    alloc: Global,
    arguments: &[u8],
    file: &[u8],
    input: &[u8],
    output: &mut [u8],
    errors: &mut [u8],
    lengths: &mut Lengths,
) -> u8
    ensures served { (writer : Written) × (said : Written)
        × (output.new ≡ filled writer.bytes output.old)
        × (lengths.new.output ≡ length writer.bytes)
        × (errors.new ≡ filled said.bytes errors.old)
        × (lengths.new.errors ≡ length said.bytes)
        × StagesOfBytes arguments.now file.now input.now nothing writer nothing said result }
    ensures status { IsStatus result }
{
    let mut writer = VecSink::new(alloc);
    let mut said = VecSink::new(alloc);
    let status = answer_stages(alloc, arguments, file, input, &mut writer, &mut said);
    hand_over(&writer, &said, output, errors, lengths);
    status.code()
}

/// Does what the program `ick-step` does with these arguments, and returns the exit status. Each
/// FILE has the bytes `file`, each INPUT has the bytes `input`, and standard input has the bytes
/// `commands`. The rest is as for `ick_serve`.
///
/// Nothing is kept from one call to the next. To go on with a session, the caller gives all its
/// commands again, and those that follow: the front of the output is the output before.
#[unsafe(no_mangle)]
pub extern "C" fn ick_step_serve(
    alloc: Global,
    arguments: &[u8],
    file: &[u8],
    input: &[u8],
    commands: &[u8],
    output: &mut [u8],
    errors: &mut [u8],
    lengths: &mut Lengths,
) -> u8
    ensures served { (writer : Written) × (said : Written)
        × (output.new ≡ filled writer.bytes output.old)
        × (lengths.new.output ≡ length writer.bytes)
        × (errors.new ≡ filled said.bytes errors.old)
        × (lengths.new.errors ≡ length said.bytes)
        × StepOfBytes arguments.now file.now input.now commands.now nothing writer nothing said
        result }
    ensures status { IsStatus result }
{
    let mut writer = VecSink::new(alloc);
    let mut said = VecSink::new(alloc);
    let status = answer_step(
        alloc,
        arguments,
        file,
        input,
        commands,
        &mut writer,
        &mut said,
    );
    hand_over(&writer, &said, output, errors, lengths);
    status.code()
}

/// Returns the library's version as a number: 1,000,000 times its first number, 1,000 times its
/// second number, and its third number.
#[unsafe(no_mangle)]
pub extern "C" fn ick_version() -> u32
    ensures { result ≡ 1000 }
{
    1000
}
