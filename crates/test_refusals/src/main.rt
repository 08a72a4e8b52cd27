//! The program `test_refusals`: makes the calls of rows, which come on standard input, and prints
//! the name of each row that holds, and how each other row differs. The calls are those that can be
//! refused memory, and those of the command line over devices that fail. Calls of the command line
//! whose devices don't fail are tried over the built program too, by the rows of tests/cli.
//!
//! If a call is refused memory, its name goes to standard error. The program then looks at what
//! must hold after the refusal, and makes the same call again if it may. It takes no memory of its
//! own while it makes calls, and writes to standard output once after each row. So
//! `tests/failures/refusals.py` can refuse each request of each row in turn.
//!
//! | Module | What it has |
//! |---|---|
//! | `attempt` | one attempt at a row |
//! | `failure` | why a row has no whole answer |
//! | `context`, `buffer` | the answer, in room that is taken before the first row |
//! | `ends` | ends of runs, and choices, as text |
//! | `fields` | numbers, choices, code and cursors from the fields of a row |
//! | `texts` | calls that append |
//! | `machines` | both machines with marks |
//! | `scripts` | steps and marks of a machine |
//! | `explorers` | listings of a machine's runs |
//! | `live`, `feeds` | the machine that reads its input from a feed |
//! | `runs` | whole runs |
//! | `served`, `cut_short` | the command line, also over a writer that fails at each byte |
//! | `devices`, `shelf` | a reader, a writer and files that fail after so many calls or bytes |
#![tactic(auto)]

mod attempt;
mod buffer;
mod context;
mod cut_short;
mod devices;
mod ends;
mod explorers;
mod failure;
mod feeds;
mod fields;
mod live;
mod machines;
mod runs;
mod scripts;
mod served;
mod shelf;
mod texts;

use attempt::attempt;
use context::Context;
use std::io;
use std::io::{ErrorKind, Write};
use test_rows::{Row, Tally, read_rows};

fn main(rt: HostRuntime) -> io::Result<()> {
    let text = io::read_to_string(rt.alloc(), rt.stdin())?;
    answer_text(&rt, text.as_bytes())
}

/// Makes the calls of a text of rows.
fn answer_text(rt: &HostRuntime, text: &[u8]) -> io::Result<()> {
    let Ok(rows) = read_rows(rt.alloc(), text) else {
        return Err(ErrorKind::OutOfMemory.into());
    };
    answer_rows(rt, rows.as_slice())
}

/// Takes the room of the answers, and makes the calls of rows.
fn answer_rows(rt: &HostRuntime, rows: &[Row]) -> io::Result<()> {
    let Ok(mut context) = Context::new(rt) else {
        return Err(ErrorKind::OutOfMemory.into());
    };
    print_rows(rt, &mut context, rows)
}

/// Makes the calls of rows, and prints a line for each row and the tally.
fn print_rows(rt: &HostRuntime, context: &mut Context<'_>, rows: &[Row]) -> io::Result<()> {
    let mut tally = Tally::new();
    print(rt, b"These rows hold:\n")?;
    for row in rows {
        attempt(context, row, &mut tally);
        print(rt, context.other.bytes())?;
    }
    context.other.clear();
    context.other.say_tally(&tally);
    print(rt, context.other.bytes())
}

/// Writes a text to standard output.
fn print(rt: &HostRuntime, text: &[u8]) -> io::Result<()> {
    rt.stdout().write_all(text)
}
