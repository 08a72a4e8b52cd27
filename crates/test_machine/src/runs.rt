//! `call run`: a machine with marks runs a program, and does the statement at each choice. It also
//! runs again from a mark before each step, and must end the same way.

use crate::answers::Answers;
use crate::failure::Failure;
use crate::machines::{back, finish, goes_on, mark};
use ick_machine::Asks;
use std::alloc::Global;

/// Runs a machine from its start, and adds how the run ended.
pub fn run<'c, M: Asks<'c>>(machine: &mut M, answers: &mut Answers) -> Result<(), Failure> {
    finish(machine)?;
    tell_end(machine, machine.work(), answers)
}

/// Adds the end and the output of a run, and the number of its steps.
fn tell_end<'c, M: Asks<'c>>(
    machine: &M,
    steps: u64,
    answers: &mut Answers,
) -> Result<(), Failure> {
    answers.ask(machine.asks())?;
    answers.quote(machine.output())?;
    answers.count(steps, b" steps")
}

/// Runs a machine with a mark before each step and one after the last step, and then again from
/// each mark. Each run must end as the first run did. At last the machine must be at its start.
pub fn run_again<'c, M: Asks<'c>>(
    alloc: Global,
    machine: &mut M,
    first: &Answers,
) -> Result<(), Failure> {
    mark_steps(machine)?;
    let total = machine.work();
    for left in 0..=total {
        back(machine)?;
        let before = total.wrapping_sub(left).wrapping_sub(machine.work());
        ends_alike(alloc, machine, before, first)?;
    }
    if machine.marks() > 0 || !machine.output().is_empty() {
        return Err(Failure::NotAtStart);
    }
    Ok(())
}

/// Makes steps up to the end of the run, within a hundred steps, with a mark before each step and
/// one after the last step.
fn mark_steps<'c, M: Asks<'c>>(machine: &mut M) -> Result<(), Failure> {
    for _ in 0..100u32 {
        mark(machine)?;
        if !goes_on(machine, true)? {
            return Ok(());
        }
    }
    Err(Failure::NoEnd)
}

/// Runs a machine to the end and goes back. `before` is the number of the steps before these, less
/// the machine's count of work.
fn ends_alike<'c, M: Asks<'c>>(
    alloc: Global,
    machine: &mut M,
    before: u64,
    first: &Answers,
) -> Result<(), Failure> {
    mark(machine)?;
    finish(machine)?;
    let mut again = Answers::new(alloc);
    tell_end(machine, machine.work().wrapping_add(before), &mut again)?;
    if again.text != first.text {
        return Err(Failure::OtherEnd);
    }
    back(machine)
}
