//! Defines sources of bytes.
ghost use Rattle.std.specs.Prelude.{◌≡◌, ◌+◌, ◌-◌, ◌≤◌, ◌<◌, ◌^◌, ◌++◌};
ghost use Rattle.std.specs.Prelude.{if◌then◌else◌, ℕ, List, Bool, [], true, IfOk, OnErr};
ghost use Rattle.std.specs.Prelude.{◌≢◌, is_ok, length, slice_index, take};

use memchr::memchr;

/// Tells that a call of a device failed.
#[derive(Clone, Copy, Debug)]
pub struct DeviceFault;

/// Supplies bytes of input.
pub trait ByteSource {
    /// Tells whether `left` describes the bytes that really come. It is true over memory. It is
    /// never true for a file, a pipe or a terminal.
    ghost told: { Bool };

    /// Lists the bytes still to come.
    ghost left: { Self → List ℕ };

    /// Counts the calls that have failed.
    ghost failed: { Self → ℕ };

    /// Returns the number of calls that have failed.
    fn failures(&self) -> u64
        ensures { result ≡ failed self.now };

    /// Reads some bytes into the front of `target`, and returns their number. The answer 0 for a
    /// target that isn't empty means the end of the input. An `Err` raises the count of failures by
    /// one and takes no byte. An `Ok` leaves the count unchanged.
    ///
    /// The count of failures must be below its greatest value.
    fn read(&mut self, target: &mut [u8]) -> Result<usize, DeviceFault>
        requires { failed self.old + 1 < 2 ^ 64 }
        ensures count { failed self.new ≡ failed self.old + (if is_ok result then 0 else 1) }
        ensures fits { IfOk result (λ n. n ≤ length target.old) }
        ensures taken { told ≡ true → IfOk result (λ n.
            left self.old ≡ take n target.new ++ left self.new) }
        ensures end { told ≡ true → IfOk result (λ n.
            n ≡ 0 → 0 < length target.old → left self.old ≡ []) }
        ensures kept { told ≡ true → OnErr result (left self.new ≡ left self.old) };

    /// Reads some bytes of the next line into the front of `target`, and returns their number. It
    /// answers as `read` does, and takes no byte behind the byte 10 that ends the line. A source
    /// that reads one byte at a time needs no other body.
    ///
    /// The count of failures must be below its greatest value.
    fn read_in_line(&mut self, target: &mut [u8]) -> Result<usize, DeviceFault>
        requires { failed self.old + 1 < 2 ^ 64 }
        ensures count { failed self.new ≡ failed self.old + (if is_ok result then 0 else 1) }
        ensures fits { IfOk result (λ n. n ≤ length target.old) }
        ensures line { IfOk result (λ n. (k : ℕ) → k + 1 < n → slice_index target.new k ≢ 10) }
        ensures taken { told ≡ true → IfOk result (λ n.
            left self.old ≡ take n target.new ++ left self.new) }
        ensures end { told ≡ true → IfOk result (λ n.
            n ≡ 0 → 0 < length target.old → left self.old ≡ []) }
        ensures kept { told ≡ true → OnErr result (left self.new ≡ left self.old) }
    {
        if target.is_empty() {
            return Ok(0);
        }
        self.read(&mut target[..1])
    }
}

/// Returns how many bytes the first line of a text has, with the byte 10 that ends it.
pub fn line_length(text: &[u8]) -> usize
    ensures within { result ≤ length text.now }
    ensures some { 0 < length text.now → 0 < result }
    ensures line { (k : ℕ) → k + 1 < result → slice_index text.now k ≢ 10 }
    ensures whole { result < length text.now → slice_index text.now (result - 1) ≡ 10 }
{
    match memchr(b'\n', text) {
        Some(index) => index + 1,
        None => text.len(),
    }
}
