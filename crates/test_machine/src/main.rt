//! The program `test_machine`: reads rows of tests from standard input, runs each on the machines
//! that it names, and prints the rows that fail.
//!
//! | Module | What it has |
//! |---|---|
//! | `both` | `call run` and `call script`: both machines with marks answer a row |
//! | `live` | `call live`: the machine that reads its input from a feed |
//! | `counts` | `call count`: all runs of a program, and their steps |
//! | `alike` | `call pairs`: machines that must be alike on random programs |
//! | `answers` | the answers to a row |
//! | `failure` | why a row has no answers |
//! | `fields` | names and numbers in the fields of a row |
//! | `programs` | the code of a source |
//! | `machines` | steps and marks of a machine |
//! | `runs` | runs from the start and from marks |
//! | `commands` | the commands of scripts |
//! | `scripts` | steps and marks that a script commands |
//! | `sides` | two machines with marks side by side |
//! | `pairs` | steps and marks in random order on both machines with marks |
//! | `feeds` | a text as a feed, and a machine that reads its input from it |
//! | `words` | pseudo-random numbers |
//! | `random_programs` | small random programs |
#![tactic(auto)]

mod alike;
mod answers;
mod both;
mod commands;
mod counts;
mod failure;
mod feeds;
mod fields;
mod live;
mod machines;
mod pairs;
mod programs;
mod random_programs;
mod runs;
mod scripts;
mod sides;
mod words;

use answers::Answers;
use failure::Failure;
use programs::compiled;
use std::alloc::Global;
use std::io;
use std::io::{ErrorKind, Write};
use test_rows::{Row, Tally, read_rows};

fn main(rt: HostRuntime) -> io::Result<()> {
    let alloc = rt.alloc();
    let text = io::read_to_string(alloc, rt.stdin())?;
    let mut out = Vec::new(alloc);
    if report(alloc, text.as_bytes(), &mut out).is_err() {
        return Err(ErrorKind::OutOfMemory.into());
    }
    rt.stdout().write_all(&out)
}

/// Appends a line for each row of a text that fails, and one with the counts of all rows.
fn report(alloc: Global, text: &[u8], out: &mut Vec<u8>) -> Result<(), Failure> {
    let rows = read_rows(alloc, text)?;
    let mut tally = Tally::new();
    for row in rows.iter() {
        check(alloc, row, &mut tally, out)?;
    }
    tally.append(out)?;
    Ok(())
}

/// Compares the answers to a row with the text that the row wants.
fn check(alloc: Global, row: &Row, tally: &mut Tally, out: &mut Vec<u8>) -> Result<(), Failure> {
    let mut answers = Answers::new(alloc);
    if let Err(failure) = answer(alloc, row, &mut answers) {
        answers.fail(failure)?;
    }
    tally.check(out, row, &answers.text)?;
    Ok(())
}

/// Adds the answers to a row, by its field `call`.
fn answer(alloc: Global, row: &Row, answers: &mut Answers) -> Result<(), Failure> {
    if row.calls(b"count") {
        counts::answer(alloc, row, answers)
    } else if row.calls(b"pairs") {
        alike::answer(alloc, row, answers)
    } else {
        answer_by_code(alloc, row, answers)
    }
}

/// Adds the answers to a row that has a source.
fn answer_by_code(alloc: Global, row: &Row, answers: &mut Answers) -> Result<(), Failure> {
    let code = compiled(alloc, row.field(b"source"))?;
    if row.calls(b"run") || row.calls(b"script") {
        both::answer(alloc, &code, row, answers)
    } else if row.calls(b"live") {
        live::answer(alloc, &code, row, answers)
    } else {
        Err(Failure::NoSuchCall)
    }
}
