//! Devices over the streams of the system. Their traits promise nothing of the bytes, because std
//! promises nothing of the bytes of standard input. The clauses of `read` and `write` speak of any
//! stream whose bytes are known.
ghost use Rattle.std.specs.Prelude.{◌≡◌, ◌≢◌, ◌+◌, ◌<◌, ◌≤◌, ◌^◌, ℕ, [], false};
ghost use Rattle.std.specs.Prelude.{if◌then◌else◌, IfOk, OnErr, OnSome, is_ok, length};
ghost use Rattle.std.specs.Prelude.{slice_index, take};
ghost use Rattle.std.specs.Io.KnownBytes.{Consumes, IsAtEnd, Keeps, WriteAppends};

use crate::counted::{read_ahead_from, read_from, write_to};
use ick_devices::{ByteSink, ByteSource, DeviceFault};
use std::io::{BufRead, Write};

/// Reads a stream. A single byte and the bytes of a line come from what the stream has read ahead.
/// A longer target is filled from the system.
#[derive(Drop)]
pub struct InStream<R> {
    stream: R,
    failures: u64,
}

impl<R: BufRead> InStream<R> {
    /// Returns a device over a stream. No call of the device has failed, and no byte is taken.
    pub fn new(stream: R) -> InStream<R>
        ensures failures { result.failures ≡ 0 }
        ensures stream { result.stream ≡ stream }
    {
        InStream {
            stream,
            failures: 0,
        }
    }
}

impl<R: BufRead> ByteSource for InStream<R> {
    ghost told = { false };

    ghost left = { λ _. [] };

    ghost failed = { λ s. s.failures };

    fn failures(&self) -> u64 {
        self.failures
    }

    /// Reads some bytes. If the stream's bytes are known, the next of them are in the target, and
    /// no other byte is taken.
    fn read(&mut self, target: &mut [u8]) -> Result<usize, DeviceFault>
        requires { self.old.failures + 1 < 2 ^ 64 }
        ensures count { self.new.failures ≡ self.old.failures + (if is_ok result then 0 else 1) }
        ensures fits { IfOk result (λ n. n ≤ length target.old) }
        ensures bytes { IfOk result (λ n. Consumes (R.remaining self.old.stream)
            (R.remaining self.new.stream) (take n target.new)) }
        ensures end { IfOk result (λ n. n ≡ 0 → 0 < length target.old →
            OnSome (R.remaining self.old.stream) (IsAtEnd (R.remaining self.new.stream))) }
        ensures kept { OnErr result (Keeps (R.remaining self.old.stream)
            (R.remaining self.new.stream)) }
    {
        if target.len() == 1 {
            read_ahead_from(&mut self.stream, &mut self.failures, target)
        } else {
            read_from(&mut self.stream, &mut self.failures, target)
        }
    }

    /// Reads some bytes of the next line, of those that the stream has read ahead. If the stream's
    /// bytes are known, the next of them are in the target, and no other byte is taken.
    fn read_in_line(&mut self, target: &mut [u8]) -> Result<usize, DeviceFault>
        requires { self.old.failures + 1 < 2 ^ 64 }
        ensures count { self.new.failures ≡ self.old.failures + (if is_ok result then 0 else 1) }
        ensures fits { IfOk result (λ n. n ≤ length target.old) }
        ensures line { IfOk result (λ n. (k : ℕ) → k + 1 < n → slice_index target.new k ≢ 10) }
        ensures bytes { IfOk result (λ n. Consumes (R.remaining self.old.stream)
            (R.remaining self.new.stream) (take n target.new)) }
        ensures end { IfOk result (λ n. n ≡ 0 → 0 < length target.old →
            OnSome (R.remaining self.old.stream) (IsAtEnd (R.remaining self.new.stream))) }
        ensures kept { OnErr result (Keeps (R.remaining self.old.stream)
            (R.remaining self.new.stream)) }
    {
        read_ahead_from(&mut self.stream, &mut self.failures, target)
    }
}

/// Writes a stream.
#[derive(Drop)]
pub struct OutStream<W> {
    stream: W,
    failures: u64,
}

impl<W: Write> OutStream<W> {
    /// Returns a device over a stream. No call of the device has failed, and no byte is written.
    pub fn new(stream: W) -> OutStream<W>
        ensures failures { result.failures ≡ 0 }
        ensures stream { result.stream ≡ stream }
    {
        OutStream {
            stream,
            failures: 0,
        }
    }
}

impl<W: Write> ByteSink for OutStream<W> {
    ghost told = { false };

    ghost written = { λ _. [] };

    ghost failed = { λ s. s.failures };

    fn failures(&self) -> u64 {
        self.failures
    }

    /// Writes some bytes of the front of a text. If the stream's bytes are known, exactly the bytes
    /// that are counted are appended.
    fn write(&mut self, text: &[u8]) -> Result<usize, DeviceFault>
        requires { self.old.failures + 1 < 2 ^ 64 }
        ensures count { self.new.failures ≡ self.old.failures + (if is_ok result then 0 else 1) }
        ensures fits { IfOk result (λ n. n ≤ length text.now) }
        ensures gains { IfOk result (λ n. 0 < length text.now → 0 < n) }
        ensures bytes { WriteAppends (W.contents self.old.stream) (W.contents self.new.stream)
            result text.now }
    {
        write_to(&mut self.stream, &mut self.failures, text)
    }
}
