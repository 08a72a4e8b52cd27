//! `call live`: the machine that reads its input from a feed follows the words of the field
//! `script`. The feed fails when the number of bytes in the field `unread` is left.
//!
//! | Word | What it does |
//! |---|---|
//! | `finish` | makes steps up to the end; at each choice the statement is done |
//! | `clear` | clears the output |
//! | `asks`, `output` | adds the machine's question, its output since the last `clear` |
//! | `rest`, `failures` | adds the rest of the input, the number of failed reads |
//! | `message` | adds the message of the fault that ended the run |

use crate::answers::Answers;
use crate::commands::{Command, command_of};
use crate::failure::Failure;
use crate::feeds::{Fed, TextFeed};
use crate::fields::number;
use ick_code::Code;
use ick_machine::{EndKind, LiveAsk};
use std::alloc::Global;
use test_rows::Row;

/// Adds the answers of the machine to a row's script.
pub fn answer(
    alloc: Global,
    code: &Code<'_>,
    row: &Row,
    answers: &mut Answers,
) -> Result<(), Failure> {
    let mut feed = TextFeed::new(row.field(b"input"));
    if !row.field(b"unread").is_empty() {
        feed.unread = number(row, b"unread")? as usize;
    }
    let mut fed = Fed::new(alloc, code, feed)?;
    follow(alloc, &mut fed, row.field(b"script"), answers)
}

/// Executes the commands of a script.
fn follow(
    alloc: Global,
    fed: &mut Fed<'_, '_, '_>,
    script: &[u8],
    answers: &mut Answers,
) -> Result<(), Failure> {
    for word in script.split(|byte| *byte == b' ') {
        obey(alloc, fed, command_of(word)?, answers)?;
    }
    Ok(())
}

/// Executes a command, or adds the answer that it asks for.
fn obey(
    alloc: Global,
    fed: &mut Fed<'_, '_, '_>,
    command: Command,
    answers: &mut Answers,
) -> Result<(), Failure> {
    match command {
        Command::Finish => finish(fed, answers),
        Command::Clear => Ok(fed.clear_output()),
        Command::Asks => tell_asked(fed.asks(), answers),
        Command::Output => answers.quote(fed.output()),
        Command::Rest => answers.quote(fed.feed.text),
        Command::Failures => answers.count(fed.feed.failures, b" failures"),
        Command::Message => answers.quote(&fed.message(alloc)?),
        _ => Err(Failure::NoSuchWord),
    }
}

/// Makes steps up to the end of the run, within a hundred steps. Each choice is to do. A failed
/// read stops the run, and is an answer.
fn finish(fed: &mut Fed<'_, '_, '_>, answers: &mut Answers) -> Result<(), Failure> {
    for _ in 0..100u32 {
        match fed.goes_on(true) {
            Ok(true) => {}
            Ok(false) => return Ok(()),
            Err(Failure::ReadFailed) => return answers.say(b"a read failed"),
            Err(failure) => return Err(failure),
        }
    }
    Err(Failure::NoEnd)
}

/// Adds the machine's question, or its end.
fn tell_asked(asked: LiveAsk, answers: &mut Answers) -> Result<(), Failure> {
    match asked {
        LiveAsk::Plain => answers.say(b"plain"),
        LiveAsk::Choice(chance) => answers.count(u64::from(chance), b"%"),
        LiveAsk::Failed => answers.say(b"failed"),
        LiveAsk::Ended(EndKind::GiveUp) => answers.say(b"given up"),
        LiveAsk::Ended(EndKind::Fault(kind, statement)) => answers.fault(kind, statement),
        LiveAsk::Ended(_) => answers.say(b"no end of a machine"),
    }
}
