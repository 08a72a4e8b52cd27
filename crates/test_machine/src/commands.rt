//! The commands of scripts.

use crate::failure::Failure;

/// A command of a script. `scripts` and `live` say what a machine does at each.
#[derive(Clone, Copy)]
pub enum Command {
    Do,
    Pass,
    Go,
    Finish,
    Mark,
    Back,
    Drop,
    Clear,
    Asks,
    Output,
    Work,
    Marks,
    Rest,
    Failures,
    Message,
}

const COMMANDS: [(&[u8], Command); 15] = [
    (b"do", Command::Do),
    (b"pass", Command::Pass),
    (b"go", Command::Go),
    (b"finish", Command::Finish),
    (b"mark", Command::Mark),
    (b"back", Command::Back),
    (b"drop", Command::Drop),
    (b"clear", Command::Clear),
    (b"asks", Command::Asks),
    (b"output", Command::Output),
    (b"work", Command::Work),
    (b"marks", Command::Marks),
    (b"rest", Command::Rest),
    (b"failures", Command::Failures),
    (b"message", Command::Message),
];

/// Returns the command that has this name.
pub fn command_of(text: &[u8]) -> Result<Command, Failure> {
    for (name, command) in &COMMANDS {
        if *name == text {
            return Ok(*command);
        }
    }
    Err(Failure::NoSuchWord)
}
