//! Lists the refusals of this crate's calls.

ghost use Rattle.std.specs.Prelude.{◌≡◌};
ghost use Rattle.ick_explorer.specs.Errors.{error_of};
ghost use Rattle.ick_explorer.specs.declared.errors.RunsError.TheVariants.{NoMemory as no_memory};

use ick_bits::NoMemory;
use ick_devices::FeedFault;
use std::alloc::{AllocError, AllocFailed};
use thiserror::Error;

/// Tells why a call was refused. Each reason has a number, from 1 on.
#[derive(Clone, Copy, Debug, PartialEq, Eq, Error)]
pub enum RunsError {
    /// Tells that the call ran out of memory.
    #[error("out of memory")]
    NoMemory = 1,
    /// Tells that the choices are not the choices of a run. Either the choices end before the run
    /// ends, or choices are left over at its end.
    #[error("no such run")]
    NoSuchRun = 2,
    /// Tells that the count of work has less than the limit on steps left.
    #[error("the count of work is full")]
    WorkFull = 3,
    /// Tells that an earlier call on this explorer answered `NoMemory`.
    #[error("the explorer has failed")]
    Failed = 4,
    /// Tells that a text is not the text of a list of choices.
    #[error("bad cursor")]
    BadCursor = 5,
    /// Tells that a source of bytes failed.
    #[error("a read failed")]
    Read = 6,
    /// Tells that a sink of bytes failed.
    #[error("a write failed")]
    Write = 7,
}

impl From<NoMemory> for RunsError {
    ghost from_gives = { λ _ error. error ≡ no_memory };

    fn from(_refused: NoMemory) -> RunsError {
        RunsError::NoMemory
    }
}

impl From<FeedFault> for RunsError {
    ghost from_gives = { λ fault error. error ≡ error_of fault };

    fn from(fault: FeedFault) -> RunsError {
        match fault {
            FeedFault::NoMemory => RunsError::NoMemory,
            FeedFault::Read => RunsError::Read,
        }
    }
}

impl From<AllocError> for RunsError {
    ghost from_gives = { λ _ error. error ≡ no_memory };

    fn from(_refused: AllocError) -> RunsError {
        RunsError::NoMemory
    }
}

impl<T: Drop> From<AllocFailed<T>> for RunsError {
    ghost from_gives = { λ _ error. error ≡ no_memory };

    fn from(_refused: AllocFailed<T>) -> RunsError {
        RunsError::NoMemory
    }
}
