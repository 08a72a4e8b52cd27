//! The error for out of memory.

ghost use Rattle.std.specs.Prelude.{◌≡◌};
ghost use Rattle.ick_bits.specs.Memory.{no_memory};

use std::alloc::{AllocError, AllocFailed};

/// A text, a list or a table cannot grow, because memory is refused.
#[derive(Clone, Copy, Debug)]
pub struct NoMemory;

impl From<AllocError> for NoMemory {
    ghost from_gives = { λ _ error. error ≡ no_memory };

    fn from(_refused: AllocError) -> NoMemory {
        NoMemory
    }
}

impl<T: Drop> From<AllocFailed<T>> for NoMemory {
    ghost from_gives = { λ _ error. error ≡ no_memory };

    fn from(_refused: AllocFailed<T>) -> NoMemory {
        NoMemory
    }
}
