//! Runs a program once with choices that a seed draws.

ghost use Rattle.std.specs.Prelude.{◌≡◌, ◌+◌, ◌<◌, ◌^◌, IfOk};
ghost use Rattle.ick_code.specs.meaning.Move.{first_state};
ghost use Rattle.ick_code.specs.Compiled.{code_program};
ghost use Rattle.ick_explorer.specs.Runs.{run};
ghost use Rattle.ick_runs.specs.Ordinary.{IsRan, UsesAll};
ghost use Rattle.ick_runs.specs.Draws.{IsDrawn, word_of};

use crate::chooser::Chooser;
use crate::drive::drive;
use crate::ordinary::{Ran, stopped};
use ick_bits::NoMemory;
use ick_code::Code;
use ick_machine::{Asks, Trailed};
use std::alloc::Global;

/// Holds a run that ended, and the choices that a seed drew for it. The run used all of these
/// choices.
#[derive(Drop)]
pub struct Drawn<'c> {
    pub choices: Vec<bool>,
    pub ran: Ran<'c>,
}

/// Runs a machine from its state with the choices that a seed draws, for at most `limit` steps
/// (this profile). Each choice asked takes one word. The words come from the generator PCG32 of the
/// seed.
///
/// The machine's count of work must have `limit` left. The answer is `NoMemory` if the machine, the
/// choices or the texts of the answer can't grow.
pub fn run_seeded_from<'c, M: Asks<'c>>(
    alloc: Global,
    machine: M,
    limit: u32,
    seed: u64,
) -> Result<Drawn<'c>, NoMemory>
    requires { (M.seen machine).work + limit < 2 ^ 64 }
    ensures choices { IfOk result (λ d. IsDrawn
        (M.seen machine).program (M.seen machine).state limit (word_of seed) d.choices.items) }
    ensures all { IfOk result (λ d. UsesAll d.choices.items d.ran) }
    ensures ran { IfOk result (λ d. IsRan d.choices.items
        (run (M.seen machine).program (M.seen machine).state limit d.choices.items) d.ran) }
{
    let mut machine = machine;
    let mut choices = Vec::new(alloc);
    let (steps, end) = drive(&mut machine, limit, Chooser::Seeded(seed), &mut choices)?;
    let ran = stopped(alloc, &machine, end, choices.len(), steps)?;
    Ok(Drawn { choices, ran })
}

/// Runs a program over an input with the choices that a seed draws, for at most `limit` steps (this
/// profile). Each choice asked takes one word. The words come from the generator PCG32 of the seed.
///
/// The answer is `NoMemory` if the run, the choices or the texts of the answer can't grow.
pub fn run_seeded<'c, 'a>(
    alloc: Global,
    code: &'c Code<'a>,
    input: &'c [u8],
    limit: u32,
    seed: u64,
) -> Result<Drawn<'c>, NoMemory>
    ensures choices { let program = code_program code.now in IfOk result (λ d. IsDrawn
        program (first_state program input.now) limit (word_of seed) d.choices.items) }
    ensures all { IfOk result (λ d. UsesAll d.choices.items d.ran) }
    ensures ran { let program = code_program code.now in IfOk result (λ d. IsRan d.choices.items
        (run program (first_state program input.now) limit d.choices.items) d.ran) }
{
    let machine = Trailed::new(alloc, code, input, 0)?;
    run_seeded_from(alloc, machine, limit, seed)
}
