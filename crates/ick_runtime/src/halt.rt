//! Why an instruction stops the run.

ghost use Rattle.std.specs.Prelude.{◌≡◌};
ghost use Rattle.ick_runtime.specs.Halts.{result_of};
ghost use Rattle.ick_runtime.specs.declared.halt.Halt.TheVariants.{NoMemory as OutOfMemory};

use ick_bits::{FaultKind, NoMemory};

/// Why an instruction of input or output stops the run.
#[derive(Clone, Copy)]
pub enum Halt {
    /// A fault without a subject.
    Fault(FaultKind),
    /// A word of the input that is no digit name, from its first byte to the one behind its last.
    Word(usize, usize),
    /// A growth was refused, or the reader of the input has failed.
    NoMemory,
}

impl From<NoMemory> for Halt {
    ghost from_gives = { λ _ halt. halt ≡ OutOfMemory };

    fn from(_refused: NoMemory) -> Halt {
        Halt::NoMemory
    }
}

/// Returns what an instruction that stores a number comes to, by the fault of the store.
pub fn fault_result(fault: Option<FaultKind>) -> Result<(), Halt>
    ensures { result ≡ result_of fault }
{
    match fault {
        None => Ok(()),
        Some(kind) => Err(Halt::Fault(kind)),
    }
}
