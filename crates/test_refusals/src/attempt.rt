//! One attempt at a row.

use crate::context::Context;
use crate::failure::{Failure, Wrong};
use crate::{live, machines, runs, served, texts};
use test_rows::{Row, Tally};

/// Makes the calls of a row, and leaves the row's line in `other`. If a call was refused, the
/// answer up to the refusal must be a prefix of the wanted one.
pub fn attempt(context: &mut Context<'_>, row: &Row, tally: &mut Tally) {
    context.answer.clear();
    let answered = answer(context, row);
    context.other.clear();
    match answered {
        Ok(()) => {}
        Err(Failure::Wrong(wrong)) => context.answer.say(wrong.text().as_bytes()),
        Err(Failure::Refused(call)) => {
            context.tell_refused(call.name());
            if row.field(b"wanted").starts_with(context.answer.bytes()) {
                context.other.say(row.name());
                context.other.say(b": refused\n");
                return;
            }
            context.answer.say(b" and a refusal");
        }
    }
    context.other.say_row(tally, row, context.answer.bytes());
}

/// Makes the calls of a row, by its field `call`.
fn answer(context: &mut Context<'_>, row: &Row) -> Result<(), Failure> {
    if row.field(b"call").starts_with(b"append") {
        texts::answer(context, row)
    } else if row.calls(b"script") || row.calls(b"next") || row.calls(b"write_runs") {
        machines::answer(context, row)
    } else if row.calls(b"step Live") || row.calls(b"run Live") {
        live::answer(context, row)
    } else if row.field(b"call").starts_with(b"run_") {
        answer_of_run(context, row)
    } else {
        served::answer(context, row)
    }
}

/// Makes the call of a row that makes a whole run.
fn answer_of_run(context: &mut Context<'_>, row: &Row) -> Result<(), Failure> {
    if row.calls(b"run_with") {
        runs::with_choices(context, row)
    } else if row.calls(b"run_seeded") {
        runs::seeded(context, row)
    } else if row.calls(b"run_stream") {
        runs::streamed(context, row)
    } else {
        Err(Failure::Wrong(Wrong::NoSuchCall))
    }
}
