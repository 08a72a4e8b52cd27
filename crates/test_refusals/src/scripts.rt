//! Steps and marks of a machine. After a refused `mark` or `step` the machine is as before, and the
//! same call then succeeds. After a refused `run` the same call goes on.

use crate::buffer::Buffer;
use crate::context::Context;
use crate::ends::say_end;
use crate::failure::{Failure, Wrong};
use ick_machine::{Ask, Asks};

/// More steps than a row makes on a machine.
const MOST: u64 = 1_000_000;

/// Follows the words of a script.
///
/// | Word | What it does |
/// |---|---|
/// | `mark`, `back` | sets a mark, goes back to the last mark |
/// | `do` | makes a step; at a choice the statement is done |
/// | `run` | makes steps up to the next choice, at most 100 |
/// | `see` | adds what is seen of the machine to the answer |
pub fn follow<'c, M: Asks<'c>>(
    context: &mut Context<'_>,
    machine: &mut M,
    name: &str,
    script: &[u8],
) -> Result<(), Failure> {
    for word in script.split(|byte| *byte == b' ') {
        follow_word(context, machine, name, word)?;
    }
    Ok(())
}

/// Follows a word of a script.
fn follow_word<'c, M: Asks<'c>>(
    context: &mut Context<'_>,
    machine: &mut M,
    name: &str,
    word: &[u8],
) -> Result<(), Failure> {
    if is_word(word, b"mark") {
        make_change(context, machine, name, Change::Mark)
    } else if is_word(word, b"do") {
        make_change(context, machine, name, Change::Step)
    } else if is_word(word, b"run") {
        run(context, machine, name)
    } else {
        go_back_or_say(context, machine, word);
        Ok(())
    }
}

/// Returns whether a word of a script is this one.
fn is_word(word: &[u8], wanted: &[u8]) -> bool {
    word == wanted
}

/// Goes back to the last mark if the word is `back`. Otherwise adds the machine's answers.
fn go_back_or_say<'c, M: Asks<'c>>(context: &mut Context<'_>, machine: &mut M, word: &[u8]) {
    if is_word(word, b"back") {
        back(machine);
    } else {
        say_machine(&mut context.answer, machine);
    }
}

/// Adds everything that is seen of a machine: its question, output, steps and marks.
fn say_machine<'c, M: Asks<'c>>(out: &mut Buffer, machine: &M) {
    say_ask(out, machine.asks());
    out.quote(machine.output());
    out.count(machine.work(), b" steps ");
    out.count(machine.marks() as u64, b" marks\n");
}

/// Adds what a machine asks.
fn say_ask(out: &mut Buffer, ask: Ask<'_>) {
    match ask {
        Ask::Plain => out.say(b"plain "),
        Ask::Choice(chance) => out.count(u64::from(chance), b"% "),
        Ask::Ended(end) => say_end(out, end),
    }
}

/// Replaces `other` by the machine's answers.
fn see<'c, M: Asks<'c>>(context: &mut Context<'_>, machine: &M) {
    context.other.clear();
    say_machine(&mut context.other, machine);
}

/// Tells that a call of a machine was refused, if the same is seen of the machine as before, which
/// is in `other`.
fn tell_kept<'c, M: Asks<'c>>(
    context: &mut Context<'_>,
    machine: &M,
    call: &str,
    name: &str,
) -> Result<(), Failure> {
    say_machine(&mut context.other, machine);
    tell_same(context, call, name)
}

/// Tells that a call of a machine was refused, if the two halves of `other` are the same.
fn tell_same(context: &Context<'_>, call: &str, name: &str) -> Result<(), Failure> {
    let seen = context.other.bytes();
    let (before, after) = seen.split_at(seen.len() / 2);
    if before != after {
        return Err(Failure::Wrong(Wrong::ChangedByRefusal));
    }
    context.tell_refused_of(call, name);
    Ok(())
}

/// A call that leaves a machine as before if it is refused.
#[derive(Clone, Copy)]
enum Change {
    Mark,
    Step,
}

impl Change {
    /// Returns the name of the call.
    fn name(self) -> &'static str {
        match self {
            Change::Mark => "mark",
            Change::Step => "step",
        }
    }
}

/// Makes a call, and once more after a refusal.
fn make_change<'c, M: Asks<'c>>(
    context: &mut Context<'_>,
    machine: &mut M,
    name: &str,
    call: Change,
) -> Result<(), Failure> {
    see(context, machine);
    if !is_refused(machine, call) {
        return Ok(());
    }
    tell_kept(context, machine, call.name(), name)?;
    if is_refused(machine, call) {
        return Err(Failure::Wrong(Wrong::RefusedTwice));
    }
    Ok(())
}

/// Makes a call, and returns whether it was refused.
fn is_refused<'c, M: Asks<'c>>(machine: &mut M, call: Change) -> bool {
    match call {
        Change::Mark => machine.mark().is_err(),
        Change::Step => is_step_refused(machine),
    }
}

/// Makes a step unless the run has ended, and returns whether it was refused.
fn is_step_refused<'c, M: Asks<'c>>(machine: &mut M) -> bool {
    if machine.work() > MOST || matches!(machine.asks(), Ask::Ended(_)) {
        return false;
    }
    machine.step(true).is_err()
}

/// Makes steps up to the next choice, at most 100.
fn run<'c, M: Asks<'c>>(
    context: &mut Context<'_>,
    machine: &mut M,
    name: &str,
) -> Result<(), Failure> {
    if machine.work() > MOST || has_run(machine) {
        return Ok(());
    }
    context.tell_refused_of("run", name);
    if !has_run(machine) {
        return Err(Failure::Wrong(Wrong::RefusedTwice));
    }
    Ok(())
}

/// Makes steps up to the next choice, at most 100, and returns whether the machine did so.
fn has_run<'c, M: Asks<'c>>(machine: &mut M) -> bool {
    machine.work() <= MOST && machine.run(100).is_ok()
}

/// Goes back to the last mark, if there is one.
fn back<'c, M: Asks<'c>>(machine: &mut M) {
    if machine.marks() > 0 {
        machine.back();
    }
}
