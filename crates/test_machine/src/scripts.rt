//! `call script`: both machines with marks follow the words of the field `script`.
//!
//! | Word | What it does |
//! |---|---|
//! | `do`, `pass` | makes a step; at a choice the statement is done or passed over |
//! | `go` | makes steps up to the next choice or the end |
//! | `finish` | makes steps up to the end; at each choice the statement is done |
//! | `mark`, `back`, `drop` | sets a mark, goes back to the last mark, drops the last mark |
//! | `asks`, `output` | adds the machine's question, its output |
//! | `work`, `marks` | adds the number of its steps, of its marks |

use crate::answers::Answers;
use crate::commands::{Command, command_of};
use crate::failure::Failure;
use crate::machines::{back, drop_mark, finish, go, mark, step};
use ick_machine::Asks;

/// Adds the answers of a machine to the words of a script.
pub fn follow<'c, M: Asks<'c>>(
    machine: &mut M,
    script: &[u8],
    answers: &mut Answers,
) -> Result<(), Failure> {
    for word in script.split(|byte| *byte == b' ') {
        obey(machine, word, answers)?;
    }
    Ok(())
}

/// Executes a command, or adds the answer that it asks for.
fn obey<'c, M: Asks<'c>>(
    machine: &mut M,
    word: &[u8],
    answers: &mut Answers,
) -> Result<(), Failure> {
    match command_of(word)? {
        Command::Do => step(machine, true),
        Command::Pass => step(machine, false),
        Command::Go => go(machine),
        Command::Finish => finish(machine),
        Command::Mark => mark(machine),
        Command::Back => back(machine),
        Command::Drop => drop_mark(machine),
        Command::Asks => answers.ask(machine.asks()),
        Command::Output => answers.quote(machine.output()),
        Command::Work => answers.count(machine.work(), b" steps"),
        Command::Marks => answers.count(machine.marks() as u64, b" marks"),
        _ => Err(Failure::NoSuchWord),
    }
}
