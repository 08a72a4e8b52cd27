//! Lists the runs of a program that end by a fault. It is an example of how to call the crates:
//!
//!     example_listing < SOURCE
//!
//! For each run that ends by a fault the program prints the line that `ick runs` prints for it. The
//! input of each run is empty, and each run has at most 10,000 steps.
//!
//! The program ends with status 1 if the source is refused, or if memory runs out.
#![tactic(auto)]

ghost use Rattle.std.specs.Prelude.{◌≡◌, ◌++◌, [], Bool, List, None, IfOk, OnOk};
ghost use Rattle.ick_code.specs.Compiled.{code_program};
ghost use Rattle.ick_code.specs.meaning.Move.{first_state};
ghost use Rattle.ick_code.specs.meaning.State.{State};
ghost use Rattle.ick_backtrack.specs.Asked.{finish_of};
ghost use Rattle.ick_explorer.specs.Explorers.{explored};
ghost use Rattle.ick_explorer.specs.Listings.{IsListing};
ghost use Rattle.ick_explorer.specs.Standing.{Stands, IsListingAt};
ghost use Rattle.example_listing.specs.FaultLines.{fault_line, fault_lines, most_steps};

use ick_backtrack::{Asks, End};
use ick_bits::{NoMemory, append_decimal, append_quoted};
use ick_code::{Code, compile};
use ick_explorer::{Explorer, Run, RunsError, append_choices};
use ick_machine::Trailed;
use ick_source::read_source;
use std::alloc::Global;
use std::io;
use std::io::{ErrorKind, Write};

/// Limits the steps of each run.
const MOST_STEPS: u32 = 10_000;

fn main(rt: HostRuntime) -> io::Result<()> {
    let alloc = rt.alloc();
    let source = io::read_to_string(alloc, rt.stdin())?;
    let Ok(program) = read_source(alloc, source.as_bytes()) else {
        return Err(ErrorKind::InvalidData.into());
    };
    let Ok(code) = compile(alloc, &program) else {
        return Err(ErrorKind::OutOfMemory.into());
    };
    let Ok(lines) = list_faults(alloc, &code) else {
        return Err(ErrorKind::OutOfMemory.into());
    };
    rt.stdout().write_all(&lines)
}

/// Returns the lines of the runs of a program that end by a fault, in the order of their choices.
/// The refusals are those of `append_faults`.
fn list_faults(alloc: Global, code: &Code<'_>) -> Result<Vec<u8>, RunsError>
    ensures { let program = code_program code.now in let first = first_state program [] in
        (cs : List (List Bool)) → IsListing program first most_steps None cs →
        IfOk result (λ lines. lines.items ≡ fault_lines program first most_steps cs) }
{
    let machine = Trailed::new(alloc, code, &[], 0)?;
    let mut explorer = Explorer::start(alloc, machine, MOST_STEPS);
    let mut lines = Vec::new(alloc);
    append_faults(&mut lines, &mut explorer)?;
    Ok(lines)
}

/// Appends the lines of those runs after the explorer's position that end by a fault, in the order
/// of their choices. After a refusal some of these lines may be appended. The refusals are:
///
/// - `Failed` if the explorer had failed.
/// - `WorkFull` if the explorer's count of work is full, or after 2^64 - 1 runs.
/// - `NoMemory` if this call runs out of memory.
fn append_faults<'c, M: Asks<'c>>(
    out: &mut Vec<u8>,
    explorer: &mut Explorer<M>,
) -> Result<(), RunsError>
    ensures { let old = explored explorer.old in
        (s : State) (cs : List (List Bool)) → Stands s old → IsListingAt s old cs →
        OnOk result (out.new.items ≡ out.old.items ++ fault_lines old.program s old.limit cs) }
{
    'runs: for _ in 0..u64::MAX {
        let Some(run) = explorer.next()? else {
            return Ok(());
        };
        append_fault(out, &run)?;
    }
    Err(RunsError::WorkFull)
}

/// Appends the line of a run if it ends by a fault, and nothing if it ends otherwise. If this call
/// runs out of memory, it may have appended a prefix of the line.
#[tactic(auto, unfolding(ick_explorer::specs::Lines::line_of))]
fn append_fault(out: &mut Vec<u8>, run: &Run<'_>) -> Result<(), NoMemory>
    ensures { let finish = finish_of run.now.end in OnOk result (out.new.items
        ≡ out.old.items ++ fault_line run.now.choices.items finish run.now.output.items) }
{
    let End::Fault(fault) = run.end else {
        return Ok(());
    };
    append_choices(out, &run.choices)?;
    out.extend_from_slice(b" E")?;
    out.extend_from_slice(&fault.kind.digits())?;
    out.push(b'@')?;
    append_decimal(out, u64::from(fault.statement))?;
    out.push(b' ')?;
    append_quoted(out, &run.output)?;
    out.push(b'\n')?;
    Ok(())
}
