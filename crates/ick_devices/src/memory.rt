//! Defines devices over memory, whose bytes contracts know.
ghost use Rattle.std.specs.Prelude.{◌≡◌, ◌+◌, ◌++◌, ◌≤◌, ◌<◌, [], length, take, true};

use crate::sink::ByteSink;
use crate::source::{ByteSource, DeviceFault, line_length};
use std::alloc::Global;
use std::marker::Model;

/// Reads from a slice. This source never fails and takes no memory. Contracts see it as the bytes
/// still to come.
#[derive(Debug, Drop)]
pub struct SliceSource<'a> {
    rest: &'a [u8],
}

impl<'a> Model for SliceSource<'a> {
    ghost use Rattle.std.specs.Prelude.{ℕ, List};

    ghost Value = { List ℕ };

    ghost view = { λ s. s.rest.now };
}

impl<'a> SliceSource<'a> {
    /// Returns a source of `bytes`.
    pub fn new(bytes: &'a [u8]) -> SliceSource<'a>
        ensures { result ≡ bytes.entry.now }
    {
        SliceSource { rest: bytes }
    }

    /// Returns the bytes still to come.
    pub fn left(&self) -> &'a [u8]
        ensures { result.now ≡ self.now }
    {
        self.rest
    }

    /// Moves the next bytes into the front of `target`.
    fn move_front(&mut self, target: &mut [u8], count: usize)
        requires left { count ≤ length self.old }
        requires room { count ≤ length target.old }
        ensures moved { self.old ≡ take count target.new ++ self.new }
    {
        let (front, rest) = self.rest.split_at(count);
        target[..count].copy_from_slice(front);
        self.rest = rest;
    }
}

impl ByteSource for SliceSource<'_> {
    ghost told = { true };

    ghost left = { λ s. s };

    ghost failed = { λ _. 0 };

    fn failures(&self) -> u64 {
        0
    }

    fn read(&mut self, target: &mut [u8]) -> Result<usize, DeviceFault> {
        let count = self.rest.len().min(target.len());
        self.move_front(target, count);
        Ok(count)
    }

    fn read_in_line(&mut self, target: &mut [u8]) -> Result<usize, DeviceFault> {
        let most = self.rest.len().min(target.len());
        let count = line_length(&self.rest[..most]);
        self.move_front(target, count);
        Ok(count)
    }
}

/// Keeps the bytes that are written. A write fails if the sink can't grow.
#[derive(Drop)]
pub struct VecSink {
    written: Vec<u8>,
    failures: u64,
}

impl Model for VecSink {
    ghost use Rattle.ick_devices.specs.Written.{Written};

    ghost Value = { Written };

    ghost view = { λ s. record { bytes = s.written.items; failures = s.failures } };
}

impl VecSink {
    /// Returns a sink that holds no bytes and has not failed. The sink takes no memory until the
    /// first write.
    pub fn new(alloc: Global) -> VecSink
        ensures { result ≡ record { bytes = []; failures = 0 } }
    {
        VecSink {
            written: Vec::new(alloc),
            failures: 0,
        }
    }

    /// Returns the bytes that were written.
    pub fn bytes(&self) -> &[u8]
        ensures { result.now ≡ self.now.bytes }
    {
        self.written.as_slice()
    }
}

impl ByteSink for VecSink {
    ghost told = { true };

    ghost written = { λ s. s.bytes };

    ghost failed = { λ s. s.failures };

    fn failures(&self) -> u64 {
        self.failures
    }

    fn write(&mut self, text: &[u8]) -> Result<usize, DeviceFault> {
        match self.written.extend_from_slice(text) {
            Ok(()) => Ok(text.len()),
            Err(_) => {
                self.failures += 1;
                Err(DeviceFault)
            }
        }
    }
}
