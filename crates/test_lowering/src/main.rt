//! The program `test_lowering`: prints the instructions of the program on standard input, statement
//! by statement (`dev/lowered`). With the argument `counts` it reads programs that stand between
//! lines of `====`, and prints how often each operation of a calculation and each instruction
//! occurs in all of them: a rule of lowering that no longer applies shows there.
//!
//! - `counts`: how often operations and instructions occur
#![tactic(auto)]

mod counts;

use counts::Counts;
use ick_code::{Code, compile};
use ick_instructions::{Instruction, Lowered, Operation};
use ick_lowering::lower;
use ick_source::read_source;
use std::alloc::Global;
use std::io::ErrorKind;
use std::{env, io};

fn main(rt: HostRuntime) -> io::Result<()> {
    let text = io::read_to_string(rt.alloc(), rt.stdin())?;
    if has_argument(&rt)? {
        print_counts(&rt, text.as_str())
    } else {
        print_instructions(&rt, text.as_bytes())
    }
}

/// Returns whether the program has an argument.
fn has_argument(rt: &HostRuntime) -> io::Result<bool> {
    Ok(env::args(rt)?.skip(1).next().is_some())
}

/// Returns the code of a source, or `None` if the source is refused.
fn code_of<'a>(alloc: Global, source: &'a [u8]) -> io::Result<Option<Code<'a>>> {
    let Ok(program) = read_source(alloc, source) else {
        return Ok(None);
    };
    let Ok(code) = compile(alloc, &program) else {
        return Err(ErrorKind::OutOfMemory.into());
    };
    Ok(Some(code))
}

/// Prints how often each operation and each instruction occurs in the programs of a text.
fn print_counts(rt: &HostRuntime, text: &str) -> io::Result<()> {
    let mut counts = Counts::new(rt.alloc());
    count_all(rt.alloc(), text, &mut counts)?;
    counts.print(rt)
}

/// Counts in each program of a text.
fn count_all(alloc: Global, text: &str, counts: &mut Counts) -> io::Result<()> {
    for source in text.split("====\n") {
        count(alloc, source.as_bytes(), counts)?;
    }
    Ok(())
}

/// Counts in the program of a source, unless the source is refused.
fn count(alloc: Global, source: &[u8], counts: &mut Counts) -> io::Result<()> {
    match code_of(alloc, source)? {
        Some(code) => count_code(alloc, &code, counts),
        None => Ok(()),
    }
}

/// Counts in the code of a program.
fn count_code(alloc: Global, code: &Code<'_>, counts: &mut Counts) -> io::Result<()> {
    let Ok(lowered) = lower(alloc, code) else {
        return Err(ErrorKind::OutOfMemory.into());
    };
    counts.add(alloc, code, &lowered)
}

/// Prints the instructions of a source text.
fn print_instructions(rt: &HostRuntime, source: &[u8]) -> io::Result<()> {
    match code_of(rt.alloc(), source)? {
        Some(code) => print_code(rt, &code),
        None => Err(ErrorKind::InvalidData.into()),
    }
}

/// Prints the instructions of a program's code.
fn print_code(rt: &HostRuntime, code: &Code<'_>) -> io::Result<()> {
    let Ok(lowered) = lower(rt.alloc(), code) else {
        return Err(ErrorKind::OutOfMemory.into());
    };
    print_lowered(rt, &lowered)
}

/// Prints the constants, the subscripts and the instructions of a lowered program.
fn print_lowered(rt: &HostRuntime, lowered: &Lowered) -> io::Result<()> {
    let (base, first) = (lowered.layout().base, lowered.layout().first);
    println!(rt; "scalars below {base}, temporaries below {first}")?;
    print_constants(rt, lowered)?;
    println!(rt; "subscripts {:?}", lowered.subscripts())?;
    print_statements(rt, lowered)
}

/// Prints the instructions, statement by statement.
fn print_statements(rt: &HostRuntime, lowered: &Lowered) -> io::Result<()> {
    let mut statement: u32 = 1;
    let mut starts = true;
    for i in lowered.instructions() {
        if starts {
            println!(rt; "statement {statement}")?;
            statement = statement.saturating_add(1);
        }
        print_instruction(rt, i)?;
        starts = i.last;
    }
    Ok(())
}

/// Prints an instruction.
fn print_instruction(rt: &HostRuntime, i: &Instruction) -> io::Result<()> {
    let (operation, to, left, right, number) = (i.operation, i.to, i.left, i.right, i.number);
    println!(rt; "  {operation:?} to {to} left {left} right {right} number {number}")
}

/// Prints the constants that instructions read and that are in no table, and their registers.
fn print_constants(rt: &HostRuntime, lowered: &Lowered) -> io::Result<()> {
    let mut register = lowered.layout().first;
    for number in lowered.constants() {
        if is_read(lowered, register) && !is_tabled(lowered, register) {
            println!(rt; "constant {register} is {number}")?;
        }
        register = register.saturating_add(1);
    }
    Ok(())
}

/// Returns whether an instruction may read a register by itself or as a subscript.
fn is_read(lowered: &Lowered, register: u32) -> bool {
    for i in lowered.instructions() {
        if i.left == register || i.right == register {
            return true;
        }
    }
    for subscript in lowered.subscripts() {
        if *subscript == register {
            return true;
        }
    }
    false
}

/// Returns whether the constant in a register is part of a table, of 1,024 constants or of 16.
fn is_tabled(lowered: &Lowered, register: u32) -> bool {
    for i in lowered.instructions() {
        let size = match i.operation {
            Operation::LookUp => 1024,
            Operation::Pick => 16,
            _ => 0,
        };
        if register >= i.right && register.saturating_sub(i.right) < size {
            return true;
        }
    }
    false
}
