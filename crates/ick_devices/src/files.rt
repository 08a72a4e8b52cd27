//! Files that are opened by name.
ghost use Rattle.std.specs.Prelude.{◌≡◌, ◌+◌, ◌<◌, ◌^◌, ℕ, List, true};
ghost use Rattle.std.specs.Prelude.{if◌then◌else◌, IfOk, is_ok};

use crate::source::{ByteSource, DeviceFault};

/// A source that reads the files it opens.
pub trait Files: ByteSource {
    /// The bytes of the file of a name.
    ghost named: { Self → List ℕ → List ℕ };

    /// Opens a file. After `Ok`, `read` reads it from its front. An `Err` raises the count of
    /// failures by one, also if memory ran out; an `Ok` leaves it. The count of failures must be
    /// below its greatest value.
    fn open_named(&mut self, name: &str) -> Result<(), DeviceFault>
        requires { Self.failed self.old + 1 < 2 ^ 64 }
        ensures count { Self.failed self.new
            ≡ Self.failed self.old + (if is_ok result then 0 else 1) }
        ensures opened { Self.told ≡ true → IfOk result (λ _.
            Self.left self.new ≡ named self.old name.now) };
}
