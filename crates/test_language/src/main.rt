//! The program `test_language`: answers rows about numbers, texts, sources and code, which come on
//! standard input, and says which answers are not the expected ones.
//!
//! | Module | What it has |
//! |---|---|
//! | `answers` | the answer of each call that a row can name |
//! | `programs` | the answer of each call that works on the program of a row's source |
//! | `failure` | why a call failed |
//! | `fields` | numbers and values from the fields of a row |
//! | `texts` | the text of an answer, and the numbers, values, names, faults and failures in it |
//! | `operators` | mingle, select and the unary operators |
//! | `numerals` | numerals, and the letters that they have |
//! | `digits` | lines of digit names, and white bytes |
//! | `messages` | messages of faults |
//! | `appended` | texts in double quotes, decimal numbers, and growth that is refused |
//! | `tape` | bytes as arrays hold them |
//! | `sources` | how sources are cut, listed and refused |
//! | `expressions`, `bodies` | bodies of statements as text |
//! | `code` | the operations that programs are compiled to |
#![tactic(auto)]

mod answers;
mod appended;
mod bodies;
mod code;
mod digits;
mod expressions;
mod failure;
mod fields;
mod messages;
mod numerals;
mod operators;
mod programs;
mod sources;
mod tape;
mod texts;

use answers::report;
use std::io;
use std::io::{ErrorKind, Write};

fn main(rt: HostRuntime) -> io::Result<()> {
    let alloc = rt.alloc();
    let text = io::read_to_string(alloc, rt.stdin())?;
    let mut out = Vec::new(alloc);
    if report(alloc, text.as_bytes(), &mut out).is_err() {
        return Err(ErrorKind::OutOfMemory.into());
    }
    rt.stdout().write_all(&out)
}
