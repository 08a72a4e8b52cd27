//! A reader and a writer that fail where a row says so.

ghost use Rattle.std.specs.Prelude.{◌≡◌, [], false};

use crate::buffer::Buffer;
use ick_devices::{ByteSink, ByteSource, DeviceFault};
use std::alloc::{AllocError, Global};

/// A source that hands out `piece` bytes a call, and at least one, and fails once `good` calls were
/// made.
#[derive(Drop)]
pub struct WornSource<'a> {
    pub rest: &'a [u8],
    pub piece: u64,
    pub good: u64,
    pub failures: u64,
}

impl ByteSource for WornSource<'_> {
    ghost told = { false };

    ghost left = { λ _. [] };

    ghost failed = { λ s. s.failures };

    fn failures(&self) -> u64 {
        self.failures
    }

    fn read(&mut self, target: &mut [u8]) -> Result<usize, DeviceFault> {
        if self.good == 0 {
            self.failures += 1;
            return Err(DeviceFault);
        }
        self.good -= 1;
        let piece = self.piece.max(1) as usize;
        let count = self.rest.len().min(target.len()).min(piece);
        let (front, rest) = self.rest.split_at(count);
        target[..count].copy_from_slice(front);
        self.rest = rest;
        Ok(count)
    }
}

/// A sink that takes so many bytes, one a call, and then fails. To write to it takes no memory.
#[derive(Drop)]
pub struct WornSink {
    buffer: Buffer,
    room: u64,
    pub failures: u64,
}

impl WornSink {
    /// Takes the room of an empty buffer. The sink takes no byte.
    pub fn new(alloc: Global) -> Result<WornSink, AllocError> {
        let buffer = Buffer::new(alloc)?;
        Ok(WornSink {
            buffer,
            room: 0,
            failures: 0,
        })
    }

    /// Removes all bytes. The sink then takes as many as `room` says, and has not failed.
    pub fn begin(&mut self, room: u64)
        ensures { self.new.failures ≡ 0 }
    {
        self.buffer.clear();
        self.room = room;
        self.failures = 0;
    }

    /// Returns the bytes.
    pub fn bytes(&self) -> &[u8] {
        self.buffer.bytes()
    }
}

impl ByteSink for WornSink {
    ghost told = { false };

    ghost written = { λ _. [] };

    ghost failed = { λ s. s.failures };

    fn failures(&self) -> u64 {
        self.failures
    }

    fn write(&mut self, text: &[u8]) -> Result<usize, DeviceFault> {
        if text.is_empty() {
            return Ok(0);
        }
        if self.room == 0 {
            self.failures += 1;
            return Err(DeviceFault);
        }
        self.room -= 1;
        self.buffer.say(&text[..1]);
        Ok(1)
    }
}
