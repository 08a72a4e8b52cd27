//! The machine that reads its input from a feed. After a refused `step` or `run` it has failed for
//! good, and has the output that it had before.

ghost use Rattle.std.specs.Prelude.{[], false};

use crate::buffer::Buffer;
use crate::context::Context;
use crate::ends::say_kind;
use crate::failure::{Call, Failure, Wrong};
use crate::feeds::TextFeed;
use crate::fields::code_of;
use crate::texts::{Piece, append};
use ick_code::Code;
use ick_machine::{Live, LiveAsk, Outlet, OutletFault};
use test_rows::Row;

/// More calls than a row makes.
const MOST: u32 = 10_000;

/// Adds the output of a row's program, its end, and the message of its fault behind the bytes AB.
pub fn answer(context: &mut Context<'_>, row: &Row) -> Result<(), Failure> {
    let code = code_of(context.alloc(), row)?;
    answer_with(context, row, &code)
}

/// Makes the machine of a code, and adds its output, its end, and the message of its fault.
fn answer_with(context: &mut Context<'_>, row: &Row, code: &Code<'_>) -> Result<(), Failure> {
    match Live::new(context.alloc(), code) {
        Ok(mut live) => answer_on(context, row, &mut live),
        Err(_) => Err(Failure::Refused(Call::NewLive)),
    }
}

/// Adds the output of a run from the machine's state on, its end, and the message of its fault.
fn answer_on(context: &mut Context<'_>, row: &Row, live: &mut Live<'_, '_>) -> Result<(), Failure> {
    let mut feed = TextFeed {
        text: row.field(b"input"),
    };
    if row.calls(b"step Live") {
        steps(context, live, &mut feed)?;
    } else {
        runs(context, live, &mut feed)?;
    }
    if let LiveAsk::Ended(end) = live.asks() {
        say_kind(&mut context.answer, end);
    }
    append(context, &Piece::End(live))
}

/// Makes steps to the end of the run, and adds its output. Each choice is to do.
fn steps(
    context: &mut Context<'_>,
    live: &mut Live<'_, '_>,
    feed: &mut TextFeed<'_>,
) -> Result<(), Failure> {
    for _ in 0..MOST {
        context.other.clear();
        context.other.say(live.output());
        let stepped = match live.asks() {
            LiveAsk::Plain => live.step(false, feed),
            LiveAsk::Choice(_) => live.step(true, feed),
            _ => break,
        };
        if stepped.is_err() {
            return Err(failed(context, live, Call::StepOfLive));
        }
    }
    context.answer.say(live.output());
    Ok(())
}

/// Adds the output of a run to an answer.
#[derive(Drop)]
struct Said<'b> {
    answer: &'b mut Buffer,
}

impl Outlet for Said<'_> {
    ghost told = { false };

    ghost written = { λ _. [] };

    ghost failed = { λ _. 0 };

    ghost held = { λ _. 0 };

    fn write(&mut self, text: &[u8]) -> Result<(), OutletFault> {
        self.answer.say(text);
        Ok(())
    }
}

/// Makes many steps at a time to the end of the run, and adds its output. Each choice is to do.
fn runs(
    context: &mut Context<'_>,
    live: &mut Live<'_, '_>,
    feed: &mut TextFeed<'_>,
) -> Result<(), Failure> {
    for _ in 0..MOST {
        context.other.clear();
        live.clear_output();
        let said = Said {
            answer: &mut context.answer,
        };
        let (ran, _) = match live.asks() {
            LiveAsk::Plain => live.run(100, feed, said),
            LiveAsk::Choice(_) => live.run(100, feed, said),
            _ => break,
        };
        if ran.is_err() {
            return Err(failed(context, live, Call::RunOfLive));
        }
        if let LiveAsk::Choice(_) = live.asks() {
            if live.step(true, feed).is_err() {
                return Err(failed(context, live, Call::StepOfLive));
            }
            context.answer.say(live.output());
        }
    }
    Ok(())
}

/// Returns that a call was refused, if the machine has failed and its output is the one in `other`.
/// It must have failed still after its output is cleared.
fn failed(context: &Context<'_>, live: &mut Live<'_, '_>, call: Call) -> Failure {
    let is_kept = live.output() == context.other.bytes() && live.asks() == LiveAsk::Failed;
    live.clear_output();
    if is_kept && live.output().is_empty() && live.asks() == LiveAsk::Failed {
        return Failure::Refused(call);
    }
    Failure::Wrong(Wrong::NotFailed)
}
