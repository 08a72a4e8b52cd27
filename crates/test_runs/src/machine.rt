//! The machines, and a run on each.

ghost use Rattle.std.specs.Prelude.{◌≡◌, ◌≢◌, Bool, List};
ghost use Rattle.std.specs.Prelude.{[], IfSome, IfNone, IfOk};
ghost use Rattle.ick_code.specs.Compiled.{code_program};
ghost use Rattle.ick_code.specs.meaning.Move.{first_state};
ghost use Rattle.ick_explorer.specs.Runs.{Execution, run};
ghost use Rattle.ick_runs.specs.Ordinary.{IsRan};
ghost use Rattle.test_runs.specs.Machines.{name_of};

use ick_bits::NoMemory;
use ick_code::Code;
use ick_devices::{SliceSource, VecSink};
use ick_machine::{Copied, Trailed};
use ick_runs::{Chooser, Ran, run_from, run_stream};
use std::alloc::Global;

/// A machine that can be measured.
#[derive(Clone, Copy)]
pub(crate) enum Machine {
    Copied,
    Trailed,
    Live,
}

impl Machine {
    /// Returns the machine of a name, or `None` if no machine has this name.
    pub(crate) fn named(name: &str) -> Option<Machine>
        ensures some { IfSome result (λ machine. name.now ≡ name_of machine) }
        ensures none { IfNone result ((machine : Machine) → name.now ≢ name_of machine) }
    {
        match name {
            "copied" => Some(Machine::Copied),
            "trailed" => Some(Machine::Trailed),
            "live" => Some(Machine::Live),
            _ => None,
        }
    }

    /// Runs a program without input and choices on this machine, for at most `limit` steps, and
    /// returns the number of steps. The output is kept until the end of the run.
    ///
    /// The answer is `NoMemory` if the run or its output can't grow.
    pub(crate) fn run(self, alloc: Global, code: &Code<'_>, limit: u32) -> Result<u32, NoMemory>
        ensures { let program = code_program code.now in IfOk result (λ steps.
            steps ≡ (run program (first_state program []) limit []).steps) }
    {
        match self {
            Machine::Copied => {
                let machine = Copied::new(alloc, code, &[], 0)?;
                Ok(steps_of(run_from(alloc, machine, limit, &[])?))
            }
            Machine::Trailed => {
                let machine = Trailed::new(alloc, code, &[], 0)?;
                Ok(steps_of(run_from(alloc, machine, limit, &[])?))
            }
            Machine::Live => {
                let mut reader = SliceSource::new(&[]);
                let mut writer = VecSink::new(alloc);
                let chooser = Chooser::Listed(&[]);
                match run_stream(alloc, code, &mut reader, &mut writer, limit, chooser) {
                    Ok(run) => Ok(run.steps),
                    Err(_) => Err(NoMemory),
                }
            }
        }
    }
}

/// Returns the number of steps of a run.
fn steps_of(ran: Ran<'_>) -> u32
    ensures { (choices : List Bool) (made : Execution) → IsRan choices made ran.entry
        → result ≡ made.steps }
{
    match ran {
        Ran::Ended { steps, .. } | Ran::Wants { steps, .. } => steps,
    }
}
