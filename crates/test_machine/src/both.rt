//! `call run` and `call script`: both machines with marks answer a row, and must answer alike. Only
//! two functions name a machine, because calls of generic functions at a machine are dear to prove.

use crate::answers::Answers;
use crate::counts::count;
use crate::failure::Failure;
use crate::fields::number;
use crate::runs::{run, run_again};
use crate::scripts::follow;
use ick_bits::NoMemory;
use ick_code::Code;
use ick_machine::{Asks, Copied, Trailed};
use std::alloc::Global;
use test_rows::Row;

/// Adds the answers of both machines to a row.
pub fn answer(
    alloc: Global,
    code: &Code<'_>,
    row: &Row,
    answers: &mut Answers,
) -> Result<(), Failure> {
    let mut other = Answers::new(alloc);
    by_copied(alloc, code, row, answers)?;
    by_trailed(alloc, code, row, &mut other)?;
    answers.agree(&other)
}

/// Adds the answers of a machine that copies what it marks.
pub fn by_copied(
    alloc: Global,
    code: &Code<'_>,
    row: &Row,
    answers: &mut Answers,
) -> Result<(), Failure> {
    let input = row.field(b"input");
    let from = u64::from(number(row, b"from")?);
    let machine = Copied::new(alloc, code, input, from);
    let again = Copied::new(alloc, code, input, from);
    drive(alloc, row, machine, again, answers)
}

/// Adds the answers of a machine that notes its changes.
pub fn by_trailed(
    alloc: Global,
    code: &Code<'_>,
    row: &Row,
    answers: &mut Answers,
) -> Result<(), Failure> {
    let input = row.field(b"input");
    let from = u64::from(number(row, b"from")?);
    let machine = Trailed::new(alloc, code, input, from);
    let again = Trailed::new(alloc, code, input, from);
    drive(alloc, row, machine, again, answers)
}

/// Adds the answers of a machine, and of one that runs again, if there was memory for both.
fn drive<'c, M: Asks<'c>>(
    alloc: Global,
    row: &Row,
    machine: Result<M, NoMemory>,
    again: Result<M, NoMemory>,
    answers: &mut Answers,
) -> Result<(), Failure> {
    let mut machine = machine?;
    let mut again = again?;
    drive_both(alloc, row, &mut machine, &mut again, answers)
}

/// Lets a machine follow the row's script, make all runs of the program, or run it once. In the
/// last case another machine runs it again.
fn drive_both<'c, M: Asks<'c>>(
    alloc: Global,
    row: &Row,
    machine: &mut M,
    again: &mut M,
    answers: &mut Answers,
) -> Result<(), Failure> {
    if row.calls(b"script") {
        follow(machine, row.field(b"script"), answers)
    } else if row.calls(b"count") {
        count(machine, answers)
    } else {
        run(machine, answers)?;
        run_again(alloc, again, answers)
    }
}
