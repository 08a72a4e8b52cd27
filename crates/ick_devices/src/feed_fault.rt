//! Defines why a feed of input answers nothing.

ghost use Rattle.std.specs.Prelude.{◌≡◌};
ghost use Rattle.ick_devices.specs.declared.feed_fault.FeedFault.TheVariants.{
  NoMemory as OutOfMemory,
};

use ick_bits::NoMemory;
use std::alloc::{AllocError, AllocFailed};

/// Tells why a feed answered neither a line, nor a byte, nor the end of the input.
#[derive(Clone, Copy, Debug)]
pub enum FeedFault {
    /// Tells that the line could not grow, because memory was refused.
    NoMemory,
    /// Tells that a read failed.
    Read,
}

impl From<NoMemory> for FeedFault {
    ghost from_gives = { λ _ fault. fault ≡ OutOfMemory };

    fn from(_refused: NoMemory) -> FeedFault {
        FeedFault::NoMemory
    }
}

impl From<AllocError> for FeedFault {
    ghost from_gives = { λ _ fault. fault ≡ OutOfMemory };

    fn from(_refused: AllocError) -> FeedFault {
        FeedFault::NoMemory
    }
}

impl<T: Drop> From<AllocFailed<T>> for FeedFault {
    ghost from_gives = { λ _ fault. fault ≡ OutOfMemory };

    fn from(_refused: AllocFailed<T>) -> FeedFault {
        FeedFault::NoMemory
    }
}
