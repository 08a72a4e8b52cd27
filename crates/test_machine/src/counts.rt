//! `call count`: the machine of the field `machine` makes all runs of a program, and counts runs
//! and steps. The program has `times` blocks of four statements without a choice, and then
//! `choices` choices. The count of steps begins at `from`.

use crate::answers::Answers;
use crate::both::{by_copied, by_trailed};
use crate::failure::Failure;
use crate::fields::{has, number};
use crate::machines::{back, goes_on, mark, step};
use crate::programs::compiled;
use ick_code::Code;
use ick_machine::{Ask, Asks};
use std::alloc::Global;
use test_rows::Row;

/// Adds the number of runs and of steps.
pub fn answer(alloc: Global, row: &Row, answers: &mut Answers) -> Result<(), Failure> {
    let (times, choices) = (number(row, b"times")?, number(row, b"choices")?);
    let source = source_of(alloc, times, choices)?;
    count_by_source(alloc, &source, row, answers)
}

/// Counts on the program of a source.
fn count_by_source(
    alloc: Global,
    source: &[u8],
    row: &Row,
    answers: &mut Answers,
) -> Result<(), Failure> {
    let code = compiled(alloc, source)?;
    count_on(alloc, &code, row, answers)
}

/// Counts on the machine of the field `machine`.
fn count_on(
    alloc: Global,
    code: &Code<'_>,
    row: &Row,
    answers: &mut Answers,
) -> Result<(), Failure> {
    if has(row, b"machine", b"copied") {
        by_copied(alloc, code, row, answers)
    } else if has(row, b"machine", b"trailed") {
        by_trailed(alloc, code, row, answers)
    } else {
        Err(Failure::NoSuchMachine)
    }
}

/// Writes the program. None of its statements changes anything.
fn source_of(alloc: Global, times: u32, choices: u32) -> Result<Vec<u8>, Failure> {
    let mut source = Vec::new(alloc);
    for _ in 0..times {
        source.extend_from_slice(b"DO FORGET #0 DO FORGET #0 DO FORGET #0 PLEASE FORGET #0\n")?;
    }
    for _ in 0..choices {
        source.extend_from_slice(b"DO %50 FORGET #0\n")?;
    }
    source.extend_from_slice(b"PLEASE GIVE UP")?;
    Ok(source)
}

/// Makes all runs of a machine at its start, and adds the number of runs and of steps.
pub fn count<'c, M: Asks<'c>>(machine: &mut M, answers: &mut Answers) -> Result<(), Failure> {
    let runs = runs_of(machine)?;
    tell_counts(runs, machine.work(), answers)
}

/// Adds a number of runs and of steps.
fn tell_counts(runs: u32, steps: u64, answers: &mut Answers) -> Result<(), Failure> {
    answers.count(u64::from(runs), b" runs")?;
    answers.count(steps, b" steps")
}

/// Makes all runs of a machine at its start, and returns their number.
fn runs_of<'c, M: Asks<'c>>(machine: &mut M) -> Result<u32, Failure> {
    for runs in 1..u32::MAX {
        go_down(machine)?;
        if machine.marks() == 0 {
            return Ok(runs);
        }
        back(machine)?;
        step(machine, true)?;
    }
    Err(Failure::NoEnd)
}

/// Makes steps up to the end of a run. At each choice it sets a mark and passes the statement over.
fn go_down<'c, M: Asks<'c>>(machine: &mut M) -> Result<(), Failure> {
    for _ in 0..100_000u32 {
        if let Ask::Choice(_) = machine.asks() {
            mark(machine)?;
        }
        if !goes_on(machine, false)? {
            return Ok(());
        }
    }
    Err(Failure::NoEnd)
}
