//! Defines sinks of bytes.
ghost use Rattle.std.specs.Prelude.{◌≡◌, ◌+◌, ◌≤◌, ◌<◌, ◌^◌, ◌++◌};
ghost use Rattle.std.specs.Prelude.{if◌then◌else◌, ℕ, List, Bool, true, IfOk, OnErr, is_ok};
ghost use Rattle.std.specs.Prelude.{length, take};

use crate::source::DeviceFault;

/// Takes bytes of output.
pub trait ByteSink {
    /// Tells whether `written` describes the bytes that really went out.
    ghost told: { Bool };

    /// Lists the bytes that were written.
    ghost written: { Self → List ℕ };

    /// Counts the calls that have failed.
    ghost failed: { Self → ℕ };

    /// Returns the number of calls that have failed.
    fn failures(&self) -> u64
        ensures { result ≡ failed self.now };

    /// Writes some bytes of the front of `text`, and returns their number. The number is at least 1
    /// if `text` isn't empty. An `Err` raises the count of failures by one and writes no byte. An
    /// `Ok` leaves the count unchanged.
    ///
    /// The count of failures must be below its greatest value.
    fn write(&mut self, text: &[u8]) -> Result<usize, DeviceFault>
        requires { failed self.old + 1 < 2 ^ 64 }
        ensures count { failed self.new ≡ failed self.old + (if is_ok result then 0 else 1) }
        ensures fits { IfOk result (λ n. n ≤ length text.now) }
        ensures gains { IfOk result (λ n. 0 < length text.now → 0 < n) }
        ensures written { told ≡ true → IfOk result (λ n.
            written self.new ≡ written self.old ++ take n text.now) }
        ensures kept { told ≡ true → OnErr result (written self.new ≡ written self.old) };
}
