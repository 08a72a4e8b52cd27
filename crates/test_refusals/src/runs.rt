//! Whole runs. A refused call leaves nothing but, if the run is streamed, a prefix of its output.

use crate::context::Context;
use crate::ends::{say_choices, say_end, say_kind};
use crate::failure::{Call, Failure, Wrong};
use crate::fields::{choices, code_of, limit, number};
use ick_devices::SliceSource;
use ick_runs::{Chooser, Ran, RunsError, Streamed, run_seeded, run_stream, run_with};
use test_rows::Row;

/// Adds the run with the choices of a row.
pub fn with_choices(context: &mut Context<'_>, row: &Row) -> Result<(), Failure> {
    let (input, limit, choices) = (row.field(b"input"), limit(row)?, choices(row)?);
    let code = code_of(context.alloc(), row)?;
    match run_with(context.alloc(), &code, input, limit, choices) {
        Ok(ran) => say_ran(context, &ran),
        Err(_) => return Err(Failure::Refused(Call::RunWith)),
    }
    Ok(())
}

/// Adds the choices that the seed of a row draws, and their run.
pub fn seeded(context: &mut Context<'_>, row: &Row) -> Result<(), Failure> {
    let (input, limit, seed) = (row.field(b"input"), limit(row)?, number(row, b"seed", 0)?);
    let code = code_of(context.alloc(), row)?;
    match run_seeded(context.alloc(), &code, input, limit, u64::from(seed)) {
        Ok(drawn) => {
            say_choices(&mut context.answer, &drawn.choices);
            say_ran(context, &drawn.ran);
        }
        Err(_) => return Err(Failure::Refused(Call::RunSeeded)),
    }
    Ok(())
}

/// Adds a run.
fn say_ran(context: &mut Context<'_>, ran: &Ran<'_>) {
    match ran {
        Ran::Ended {
            output,
            end,
            used,
            steps,
        } => {
            context.answer.quote(output);
            say_end(&mut context.answer, *end);
            context.answer.count(*used as u64, b" choices ");
            context.answer.count(u64::from(*steps), b" steps");
        }
        Ran::Wants { output, steps } => {
            context.answer.quote(output);
            context
                .answer
                .count(u64::from(*steps), b" steps and no choice left");
        }
    }
}

/// Returns the choices of a row, or those that its seed draws.
fn chooser(row: &Row) -> Result<Chooser<'static>, Failure> {
    if row.field(b"seed").is_empty() {
        return Ok(Chooser::Listed(choices(row)?));
    }
    Ok(Chooser::Seeded(u64::from(number(row, b"seed", 0)?)))
}

/// Adds what a streamed run writes, and what the call returns.
pub fn streamed(context: &mut Context<'_>, row: &Row) -> Result<(), Failure> {
    let (alloc, limit, chooser) = (context.alloc(), limit(row)?, chooser(row)?);
    let code = code_of(alloc, row)?;
    let mut reader = SliceSource::new(row.field(b"input"));
    let writer = &mut context.answer;
    match run_stream(alloc, &code, &mut reader, writer, limit, chooser) {
        Ok(streamed) => say_streamed(context, &streamed),
        Err(RunsError::NoMemory) => return Err(Failure::Refused(Call::RunStream)),
        Err(_) => return Err(Failure::Wrong(Wrong::OtherRefusal)),
    }
    Ok(())
}

/// Adds what `run_stream` returns.
fn say_streamed(context: &mut Context<'_>, streamed: &Streamed) {
    say_choices(&mut context.answer, &streamed.choices);
    say_kind(&mut context.answer, streamed.end);
    context.answer.quote(&streamed.message);
    context.answer.count(u64::from(streamed.steps), b" steps");
}
