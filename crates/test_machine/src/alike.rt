//! `call pairs`: two machines run `programs` random programs side by side, and must be alike at
//! every point. `pairs` says which machines these are.

use crate::answers::Answers;
use crate::failure::Failure;
use crate::fields::number;
use crate::pairs;
use crate::programs::compiled;
use crate::random_programs::source_of;
use crate::words::Words;
use ick_machine::{Ask, Asks, End};
use std::alloc::Global;
use test_rows::Row;

/// Adds `alike`, unless the machines differ on a program.
pub fn answer(alloc: Global, row: &Row, answers: &mut Answers) -> Result<(), Failure> {
    let mut words = Words {
        state: u64::from(number(row, b"seed")?),
    };
    for _ in 0..number(row, b"programs")? {
        let source = source_of(alloc, &mut words)?;
        lead(alloc, &source, &mut words)?;
    }
    answers.say(b"alike")
}

/// Compares two machines on the program of a source.
fn lead(alloc: Global, source: &[u8], words: &mut Words) -> Result<(), Failure> {
    let code = compiled(alloc, source)?;
    pairs::lead(alloc, &code, words)
}

/// Checks that two machines have the same question, output, and numbers of steps and marks.
pub fn are_alike<'c, A: Asks<'c>, B: Asks<'c>>(one: &A, other: &B) -> Result<(), Failure> {
    if !is_same(one.asks(), other.asks()) {
        return Err(Failure::OtherQuestion);
    }
    if one.output() != other.output() {
        return Err(Failure::OtherOutput);
    }
    if one.work() != other.work() || one.marks() != other.marks() {
        return Err(Failure::OtherWork);
    }
    Ok(())
}

/// Returns whether two machines ask the same.
fn is_same(one: Ask<'_>, other: Ask<'_>) -> bool {
    match (one, other) {
        (Ask::Plain, Ask::Plain) => true,
        (Ask::Choice(one), Ask::Choice(other)) => one == other,
        (Ask::Ended(End::GiveUp), Ask::Ended(End::GiveUp)) => true,
        (Ask::Ended(End::Fault(one)), Ask::Ended(End::Fault(other))) => {
            one.kind.number() == other.kind.number()
                && one.statement == other.statement
                && one.subject == other.subject
        }
        _ => false,
    }
}
