//! Runs a program once with given choices.

ghost use Rattle.std.specs.Prelude.{◌≡◌, ◌+◌, ◌<◌, ◌^◌, IfOk};
ghost use Rattle.ick_code.specs.meaning.Move.{first_state};
ghost use Rattle.ick_code.specs.Compiled.{code_program};
ghost use Rattle.ick_explorer.specs.Runs.{run};
ghost use Rattle.ick_runs.specs.Ordinary.{IsRan, IgnoresUnused, HasStopped};

use crate::chooser::Chooser;
use crate::drive::drive;
use ick_bits::NoMemory;
use ick_code::Code;
use ick_machine::{Asks, Backtrack, End, Trailed};
use std::alloc::Global;

/// Holds the result of a run with given choices.
#[derive(Drop)]
pub enum Ran<'c> {
    /// Tells that the run ended after it used the first `used` choices.
    Ended {
        output: Vec<u8>,
        end: End<'c>,
        used: usize,
        steps: u32,
    },
    /// Tells that the run asked a choice when no choice was left.
    Wants {
        output: Vec<u8>,
        steps: u32,
    },
}

/// Returns the result of the run that stopped in the machine's state: by an end, or because no
/// choice was left.
pub(crate) fn stopped<'c, M: Backtrack>(
    alloc: Global,
    machine: &M,
    end: Option<End<'c>>,
    used: usize,
    steps: u32,
) -> Result<Ran<'c>, NoMemory>
    ensures { IfOk result (HasStopped (M.seen machine.now).state.output end.entry used steps) }
{
    let output = Vec::from_slice(alloc, machine.output())?;
    match end {
        Some(end) => Ok(Ran::Ended {
            output,
            end,
            used,
            steps,
        }),
        None => Ok(Ran::Wants { output, steps }),
    }
}

/// Runs a machine from its state with given choices, for at most `limit` steps (this profile).
/// Unused choices change nothing.
///
/// The machine's count of work must have `limit` left. The answer is `NoMemory` if the machine, the
/// list of used choices or the texts of the answer can't grow.
pub fn run_from<'c, M: Asks<'c>>(
    alloc: Global,
    machine: M,
    limit: u32,
    choices: &[bool],
) -> Result<Ran<'c>, NoMemory>
    requires { (M.seen machine).work + limit < 2 ^ 64 }
    ensures run { IfOk result (λ r. IsRan choices.now
        (run (M.seen machine).program (M.seen machine).state limit choices.now) r) }
    ensures unused { IfOk result (λ r.
        IgnoresUnused (M.seen machine).program (M.seen machine).state limit choices.now r) }
{
    let mut machine = machine;
    let mut used = Vec::new(alloc);
    let (steps, end) = drive(&mut machine, limit, Chooser::Listed(choices), &mut used)?;
    stopped(alloc, &machine, end, used.len(), steps)
}

/// Runs a program over an input with given choices, for at most `limit` steps (this profile).
/// Unused choices change nothing.
///
/// The answer is `NoMemory` if the run or the texts of the answer can't grow.
pub fn run_with<'c, 'a>(
    alloc: Global,
    code: &'c Code<'a>,
    input: &'c [u8],
    limit: u32,
    choices: &[bool],
) -> Result<Ran<'c>, NoMemory>
    ensures run { let program = code_program code.now in IfOk result (λ r. IsRan choices.now
        (run program (first_state program input.now) limit choices.now) r) }
    ensures unused { let program = code_program code.now in IfOk result (λ r.
        IgnoresUnused program (first_state program input.now) limit choices.now r) }
{
    let machine = Trailed::new(alloc, code, input, 0)?;
    run_from(alloc, machine, limit, choices)
}
