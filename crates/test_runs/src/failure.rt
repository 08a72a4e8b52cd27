//! Why a call failed.

use ick_bits::NoMemory;
use ick_runs::RunsError;
use std::alloc::{AllocError, AllocFailed};

/// Why a call of a row failed before it had an answer.
#[derive(Clone, Copy)]
pub enum Failure {
    /// A call of the crate refused.
    Runs(RunsError),
    /// The source is refused.
    Source,
    /// A field that must be a number is none.
    Number,
    /// No call has the name that is given.
    Call,
    /// No machine has the name that is given.
    Machine,
}

impl From<RunsError> for Failure {
    fn from(error: RunsError) -> Failure {
        Failure::Runs(error)
    }
}

impl From<NoMemory> for Failure {
    fn from(_refused: NoMemory) -> Failure {
        Failure::Runs(RunsError::NoMemory)
    }
}

impl From<AllocError> for Failure {
    fn from(_refused: AllocError) -> Failure {
        Failure::Runs(RunsError::NoMemory)
    }
}

impl<T: Drop> From<AllocFailed<T>> for Failure {
    fn from(_refused: AllocFailed<T>) -> Failure {
        Failure::Runs(RunsError::NoMemory)
    }
}
