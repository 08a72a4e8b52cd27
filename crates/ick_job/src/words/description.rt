//! The description of a command, and the command that a parse takes.
ghost use Rattle.std.specs.Prelude.{IfOk};
ghost use Rattle.ick_job.specs.Built.{Reads};
ghost use Rattle.ick_job.specs.Descriptions.{described, program_app};

use crate::words::argument::Argument;
use clap::Command;
use std::alloc::{AllocError, Global};

/// A command: its name, what its help says, and its arguments.
#[derive(Clone, Copy)]
pub struct Description<'a> {
    pub name: &'a str,
    pub about: &'a str,
    /// The text below the arguments.
    pub after_help: &'a str,
    pub arguments: &'a [Argument<'a>],
}

/// Returns the command of a description.
fn command_of<'a>(alloc: Global, description: &Description<'a>) -> Result<Command<'a>, AllocError>
    ensures { IfOk result (λ c. Reads c (described description.now)) }
{
    let mut command = Command::new(alloc, description.name)
        .about(description.about)
        .after_help(description.after_help);
    for argument in description.arguments {
        command = command.arg(argument.built(alloc))?;
    }
    Ok(command)
}

/// Returns the command of a program with its commands. The arguments come without the program's
/// own name.
pub fn program_of<'a>(
    alloc: Global,
    program: &Description<'a>,
    commands: &[Description<'a>],
) -> Result<Command<'a>, AllocError>
    ensures { IfOk result (λ c. Reads c (program_app program.now commands.now)) }
{
    let mut command = command_of(alloc, program)?
        .bin_name(program.name)?
        .no_binary_name(true);
    for description in commands {
        command = command.subcommand(command_of(alloc, description)?)?;
    }
    Ok(command)
}
