//! Why a run stops.

ghost use Rattle.std.specs.Prelude.{◌≡◌};
ghost use Rattle.ick_engine.specs.Exits.{exit_of};

use ick_bits::FaultKind;
use ick_runtime::Halt;

/// How a run ended. A fault has the number of its statement, and what gives its subject.
#[derive(Clone, Copy)]
pub enum RawEnd {
    /// The run gave up (Revised Manual, 4.4.11).
    GaveUp,
    /// A fault without a subject.
    Faulted(FaultKind, u32),
    /// An unrecognised statement. The subject is its text.
    Unknown(u32),
    /// An unknown word of the input, from its first byte to the one behind its last.
    Word(u32, usize, usize),
}

/// Why a run stops.
#[derive(Clone, Copy)]
pub enum Exit {
    /// As many steps were made as are allowed.
    Limit,
    /// There may be no room to note the changes of a statement. The run goes on from here.
    Room,
    /// A choice is asked: whether the statement is done.
    Asked,
    /// The reader waits: a WRITE IN is met that is certain to be done, or output has left that the
    /// memory still holds. The run goes on from here.
    Waits,
    /// Memory has run out within a statement. What was noted can be undone.
    NoMemory,
    /// The run has ended.
    Ended(RawEnd),
}

/// Returns why the run stops if an instruction of input or output stops it.
#[cold]
pub fn exit_of_halt(halt: Halt, here: u32) -> Exit
    ensures { result ≡ exit_of halt here }
{
    match halt {
        Halt::Fault(kind) => Exit::Ended(RawEnd::Faulted(kind, here)),
        Halt::Word(from, to) => Exit::Ended(RawEnd::Word(here, from, to)),
        Halt::NoMemory => Exit::NoMemory,
    }
}
