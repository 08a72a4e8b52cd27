//! The program `test_traces`: reads programs that stand between lines of `====`, each behind a line
//! with a number. It makes so many steps of each without traces. It prints the traces, follows them
//! from there on, and prints where the run is then.
#![tactic(auto)]

ghost use Rattle.ick_runtime.specs.Memory.{view_in};
ghost use Rattle.ick_runtime.specs.Steady.{IsReady};
ghost use Rattle.ick_traces.specs.Fixed.{AreAllowed};
ghost use Rattle.ick_traces.specs.Traces.{AreTraces};

use ick_code::{Code, compile};
use ick_engine::{Exit, TextReader, run_steps};
use ick_instructions::Lowered;
use ick_lowering::lower;
use ick_runtime::{Memory, NoTraces, Nobody, Notes, fresh_memory};
use ick_source::read_source;
use ick_traces::{SideExit, Traces, build_traces, fixed_statements, follow_traces};
use std::io;
use std::io::ErrorKind;

fn main(rt: HostRuntime) -> io::Result<()> {
    let text = io::read_to_string(rt.alloc(), rt.stdin())?;
    for part in text.split("====\n") {
        let Some((count, source)) = part.split_once('\n') else {
            return Err(ErrorKind::InvalidData.into());
        };
        let Ok(steps) = count.parse::<u32>() else {
            return Err(ErrorKind::InvalidData.into());
        };
        show(&rt, source.as_bytes(), steps)?;
    }
    Ok(())
}

/// Shows the traces of a source text, after so many steps.
fn show(rt: &HostRuntime, source: &[u8], steps: u32) -> io::Result<()> {
    let Ok(program) = read_source(rt.alloc(), source) else {
        return Err(ErrorKind::InvalidData.into());
    };
    let Ok(code) = compile(rt.alloc(), &program) else {
        return Err(ErrorKind::OutOfMemory.into());
    };
    show_code(rt, &code, steps)
}

/// Shows the traces of a code, after so many steps.
fn show_code(rt: &HostRuntime, code: &Code<'_>, steps: u32) -> io::Result<()> {
    let Ok(lowered) = lower(rt.alloc(), code) else {
        return Err(ErrorKind::OutOfMemory.into());
    };
    let Ok(mut memory) = fresh_memory(rt.alloc(), &lowered) else {
        return Err(ErrorKind::OutOfMemory.into());
    };
    memory.point.left = steps;
    let Exit::Limit = run_steps(
        &lowered,
        &mut memory,
        &mut Nobody,
        &mut TextReader::new(b""),
        &NoTraces,
    ) else {
        return Err(ErrorKind::InvalidData.into());
    };
    let Ok(fixed) = fixed_statements(rt.alloc(), &lowered) else {
        return Err(ErrorKind::OutOfMemory.into());
    };
    match build_traces(rt.alloc(), &lowered, fixed) {
        Ok(Some(traces)) => {
            print_traces(rt, &traces)?;
            print_run(rt, &lowered, memory, &traces)
        }
        Ok(None) => println!(rt; "the traces are not those of the program"),
        Err(_) => Err(ErrorKind::OutOfMemory.into()),
    }
}

/// Prints each instruction of traces, and its side exit, if it has one.
fn print_traces(rt: &HostRuntime, traces: &Traces) -> io::Result<()> {
    for at in 0..traces.code.len() {
        let i = traces.code[at];
        let operation = i.operation;
        let exit = i.right as usize;
        if operation.is_calculation() || exit >= traces.exits.len() {
            println!(rt; "{at}: {operation:?}")?;
            continue;
        }
        let SideExit {
            here,
            steps,
            count,
            ..
        } = traces.exits[exit];
        println!(rt;
            "{at}: {operation:?} of statement {here} after {steps} steps, {count} pending"
        )?;
    }
    Ok(())
}

/// Follows traces for at most a thousand steps, and prints where the run is then.
fn print_run(
    rt: &HostRuntime,
    lowered: &Lowered<'_, '_>,
    mut memory: Memory,
    traces: &Traces,
) -> io::Result<()>
    requires traces { AreTraces lowered.now.code.now lowered.now.parts traces.now }
    requires ready { IsReady lowered.now.code.now lowered.now.parts (view_in memory) }
    requires allowed { AreAllowed lowered.now.code.now traces.now.fixed memory.statuses.items }
{
    // `follow_traces` asks for the room for the changes of any statement.
    if !Nobody.has_room(lowered.longest()) {
        return Err(ErrorKind::OutOfMemory.into());
    }
    memory.point.left = 1000;
    let mut point = memory.point;
    follow_traces(lowered, traces, &mut memory, &mut Nobody, &mut point);
    let (place, left, depth) = (point.place, point.left, point.depth);
    println!(rt;
        "at statement {place} with {left} of 1000 steps left and {depth} return addresses"
    )?;
    print_scalars(rt, lowered, memory.registers.as_slice())
}

/// Prints the numbers of the scalars.
fn print_scalars(rt: &HostRuntime, lowered: &Lowered<'_, '_>, registers: &[u32]) -> io::Result<()> {
    for slot in 0..registers.len().min(lowered.layout().base as usize) {
        println!(rt; "scalar {slot} is {}", registers[slot])?;
    }
    Ok(())
}
