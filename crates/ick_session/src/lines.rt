//! The answer to a line.

ghost use Rattle.std.specs.Prelude.{◌≡◌, ◌<◌, ℕ, List, codes, find, length};
ghost use Rattle.ick_inspect.specs.Text.{Adds};
ghost use Rattle.ick_session.specs.Commands.{verb_in, verbs};
ghost use Rattle.ick_session.specs.Lines.{AnswersLine, Says, begins_with, nearest_text};
ghost use Rattle.ick_session.specs.Lines.{short_text, unread_text};
ghost use Rattle.ick_session.specs.Session.{seen, settings};
ghost use Rattle.ick_syntax.specs.StatementTree.{statement_trees};

use crate::commands::{Command, nearest_verb, next_word, read_command, verb_of};
use crate::session::Session;
use ick_inspect::{LineColumn, Text};
use ick_step::RunsError;
use ick_syntax::Statement;
use std::alloc::Global;

/// Answers a line, and puts the answer into `out` in place of what is there. Returns whether the
/// session goes on, which it does unless the line is the command `quit`. There is a position for
/// each statement of the program, and `statements` are its statements.
///
/// A line that is no command changes nothing, and the answer says what the verb takes, or names the
/// nearest command. If the count of work has no room for the steps that a command may make, the
/// answer says so, and nothing else changes. If memory runs out, the session stands where the
/// command has come to, and the answer to a command that moves says after how many steps.
pub fn answer_line(
    alloc: Global,
    positions: &[LineColumn],
    statements: &[Statement<'_>],
    session: &mut Session<'_, '_>,
    line: &[u8],
    out: &mut Text,
) -> bool
    requires positions { length positions.now ≡ length (seen session.old).program }
    requires statements { statement_trees statements.now ≡ (seen session.old).program }
    ensures fixed { settings session.new ≡ record (settings session.old) {
      breakpoints = (settings session.new).breakpoints;
    } }
    ensures answers { (text : List ℕ)
        × AnswersLine (settings session.old) positions.now (seen session.old) line.now
        (settings session.new) (seen session.new) text result
        × Says out.new text }
{
    out.clear();
    let Some(command) = read_command(line) else {
        let (word, _rest) = next_word(line);
        if !word.is_empty() {
            append_unread(word, out);
        }
        return true;
    };
    match command {
        Command::Quit => false,
        _ => match session.answer(alloc, positions, statements, command, out) {
            Ok(()) => true,
            Err(error) => {
                out.clear();
                append_error(session, error, command.moves(), out);
                true
            }
        },
    }
}

/// Appends what the verb takes that a word means, or the nearest command.
fn append_unread(word: &[u8], out: &mut Text)
    requires { 0 < length word.now }
    ensures { Adds out.old out.new (unread_text word.now (verb_in word.now)) }
{
    match verb_of(word) {
        Some(verb) => out.push(verb.takes()),
        None => append_nearest(word[0], out),
    }
}

/// Appends that there is no such command, and names the first one with this first letter.
fn append_nearest(letter: u8, out: &mut Text)
    ensures { Adds out.old out.new (nearest_text (find (begins_with letter) verbs)) }
{
    match nearest_verb(letter) {
        Some(verb) => {
            out.push(b"unknown command; did you mean ");
            out.push(verb.word());
            out.push(b"? help lists all commands\n");
        }
        None => out.push(b"unknown command; help lists all commands\n"),
    }
}

/// Appends why a command came to no answer: the count of work has no room, or memory ran out.
fn append_error(session: &Session<'_, '_>, error: RunsError, moves: bool, out: &mut Text)
    ensures full { error ≡ RunsError.WorkFull →
        Adds out.old out.new (codes "too many steps were made\n") }
    ensures short { error ≡ RunsError.NoMemory →
        Adds out.old out.new (short_text moves (seen session.now)) }
{
    match error {
        RunsError::WorkFull => out.push(b"too many steps were made\n"),
        _ => append_short(session, moves, out),
    }
}

/// Appends that memory ran out. If the command moves, the answer says how many steps were made.
fn append_short(session: &Session<'_, '_>, moves: bool, out: &mut Text)
    ensures { Adds out.old out.new (short_text moves (seen session.now)) }
{
    if !moves {
        out.push(b"out of memory\n");
        return;
    }
    out.push(b"stopped after ");
    out.push_decimal(session.steps() as u64);
    out.push(b" steps: out of memory\n");
}
