//! Why a row has no answers.

use ick_bits::NoMemory;
use ick_devices::FeedFault;
use std::alloc::{AllocError, AllocFailed};

/// Why a row has no answers: memory is refused, a comparison failed, or the row asks for something
/// that does not exist.
#[derive(Clone, Copy)]
pub enum Failure {
    NoMemory,
    AfterEnd,
    GoesOnAlone,
    NoEnd,
    NoMark,
    NoNumber,
    NoSuchCall,
    NoSuchMachine,
    NoSuchWord,
    NotAtStart,
    OtherEnd,
    OtherOutput,
    OtherQuestion,
    OtherWork,
    ReadFailed,
    RefusedSource,
    TooManySteps,
}

impl Failure {
    /// Returns the failure in words.
    pub fn text(self) -> &'static [u8] {
        match self {
            Failure::NoMemory => b"no memory",
            Failure::AfterEnd => b"a step after the end",
            Failure::GoesOnAlone => b"a machine that goes on alone",
            Failure::NoEnd => b"runs that have no end",
            Failure::NoMark => b"no mark to go back to",
            Failure::NoNumber => b"a field that is no number",
            Failure::NoSuchCall => b"a call that there is not",
            Failure::NoSuchMachine => b"a machine that there is not",
            Failure::NoSuchWord => b"a word that no script has",
            Failure::NotAtStart => b"a machine that is not back at its start",
            Failure::OtherEnd => b"a run from a mark ends otherwise",
            Failure::OtherOutput => b"machines that wrote otherwise",
            Failure::OtherQuestion => b"machines that ask otherwise",
            Failure::OtherWork => b"machines of other steps or marks",
            Failure::ReadFailed => b"a read failed",
            Failure::RefusedSource => b"the source is refused",
            Failure::TooManySteps => b"more steps than are counted",
        }
    }
}

impl From<NoMemory> for Failure {
    fn from(_refused: NoMemory) -> Failure {
        Failure::NoMemory
    }
}

impl From<AllocError> for Failure {
    fn from(_refused: AllocError) -> Failure {
        Failure::NoMemory
    }
}

impl<T: Drop> From<AllocFailed<T>> for Failure {
    fn from(_refused: AllocFailed<T>) -> Failure {
        Failure::NoMemory
    }
}

impl From<FeedFault> for Failure {
    fn from(fault: FeedFault) -> Failure {
        match fault {
            FeedFault::NoMemory => Failure::NoMemory,
            FeedFault::Read => Failure::ReadFailed,
        }
    }
}
