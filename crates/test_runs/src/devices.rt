//! A reader and a writer that fail where a row says so.

ghost use Rattle.std.specs.Prelude.{true};

use ick_devices::{ByteSink, ByteSource, DeviceFault};

/// A source whose reads fail after so many were made.
#[derive(Drop)]
pub struct WornSource<'a> {
    pub rest: &'a [u8],
    pub good: u64,
    pub failures: u64,
}

impl ByteSource for WornSource<'_> {
    ghost told = { true };

    ghost left = { λ s. s.rest.now };

    ghost failed = { λ s. s.failures };

    fn failures(&self) -> u64 {
        self.failures
    }

    fn read(&mut self, target: &mut [u8]) -> Result<usize, DeviceFault> {
        if self.good == 0 {
            self.failures += 1;
            return Err(DeviceFault);
        }
        self.good -= 1;
        let count = self.rest.len().min(target.len());
        let (front, rest) = self.rest.split_at(count);
        target[..count].copy_from_slice(front);
        self.rest = rest;
        Ok(count)
    }
}

/// A sink that takes so many bytes, one a call, and then fails.
#[derive(Drop)]
pub struct WornSink {
    pub bytes: Vec<u8>,
    pub room: u64,
    pub failures: u64,
}

impl ByteSink for WornSink {
    ghost told = { true };

    ghost written = { λ s. s.bytes.items };

    ghost failed = { λ s. s.failures };

    fn failures(&self) -> u64 {
        self.failures
    }

    fn write(&mut self, text: &[u8]) -> Result<usize, DeviceFault> {
        let Some(first) = text.first() else {
            return Ok(0);
        };
        if (self.bytes.len() as u64) < self.room && self.bytes.push(*first).is_ok() {
            return Ok(1);
        }
        self.failures += 1;
        Err(DeviceFault)
    }
}
