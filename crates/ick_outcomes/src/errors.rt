//! Lists the refusals of a search.

ghost use Rattle.std.specs.Prelude.{◌≡◌};
ghost use Rattle.ick_outcomes.specs.declared.errors.OutcomesError.TheVariants.{
  NoMemory as no_memory,
};

use ick_bits::NoMemory;
use std::alloc::AllocError;
use thiserror::Error;

/// Tells why a search was refused.
#[derive(Clone, Copy, Debug, PartialEq, Eq, Error)]
pub enum OutcomesError {
    /// Tells that a request for memory was refused.
    #[error("out of memory")]
    NoMemory,
    /// Tells that more states would have to be kept than the caller allows.
    #[error("too many states")]
    TooManyStates,
}

impl From<NoMemory> for OutcomesError {
    ghost from_gives = { λ _ error. error ≡ no_memory };

    fn from(_refused: NoMemory) -> OutcomesError {
        OutcomesError::NoMemory
    }
}

impl From<AllocError> for OutcomesError {
    ghost from_gives = { λ _ error. error ≡ no_memory };

    fn from(_refused: AllocError) -> OutcomesError {
        OutcomesError::NoMemory
    }
}
