//! The program `test_runs`: answers rows about runs, listings, cursors, seeds and streams, which
//! come on standard input, and says which answers are not the expected ones. With arguments it
//! makes runs whose steps can be measured:
//!
//!     test_runs measure LIMIT MACHINE.. < SOURCE
//!
//! | Module | What it has |
//! |---|---|
//! | `answers` | the answer of each call that a row can name |
//! | `measure` | the runs that arguments ask for |
//! | `failure` | why a call failed |
//! | `fields` | numbers, choices and code from the fields of a row |
//! | `texts` | answers as text |
//! | `listings`, `counts`, `many` | listings, and the work that they take |
//! | `explorers`, `tasks` | explorers over both machines, and what is done with them |
//! | `cut_short` | listings on a writer that fails |
//! | `cursors` | texts of cursors |
//! | `devices` | a reader and a writer that fail after so many bytes |
//! | `streams`, `interleaving` | runs whose input and output are streams |
//! | `machine`, `steps` | each machine, and the steps of a run on it |
//! | `same` | runs that are held against one another |
//! | `seeds` | runs whose choices a seed draws |
//! | `generated` | listings of random programs |
//! | `whole` | texts that are read and written whole |
#![tactic(auto)]

mod answers;
mod counts;
mod cursors;
mod cut_short;
mod devices;
mod explorers;
mod failure;
mod fields;
mod generated;
mod interleaving;
mod listings;
mod machine;
mod many;
mod measure;
mod same;
mod seeds;
mod steps;
mod streams;
mod tasks;
mod texts;
mod whole;

use answers::report;
use failure::Failure;
use measure::measure;
use std::alloc::Global;
use std::io::{ErrorKind, Write};
use std::{env, io};

fn main(rt: HostRuntime) -> io::Result<()> {
    let alloc = rt.alloc();
    let text = io::read_to_string(alloc, rt.stdin())?;
    let mut out = Vec::new(alloc);
    let mut arguments = env::args(&rt)?;
    match append_answer(alloc, text.as_bytes(), &mut arguments, &mut out) {
        Ok(()) => rt.stdout().write_all(&out),
        Err(Failure::Runs(_)) => Err(ErrorKind::OutOfMemory.into()),
        Err(_) => Err(ErrorKind::InvalidInput.into()),
    }
}

/// Appends what the program prints for a text and the program's arguments.
fn append_answer(
    alloc: Global,
    text: &[u8],
    arguments: &mut env::Args<Global>,
    out: &mut Vec<u8>,
) -> Result<(), Failure> {
    let _name = arguments.next();
    match arguments.next() {
        Some(word) if word.as_str() == "measure" => measure(alloc, text, arguments, out),
        Some(_) => Err(Failure::Call),
        None => Ok(report(alloc, text, out)?),
    }
}
