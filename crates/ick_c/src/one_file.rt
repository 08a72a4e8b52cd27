//! A file in memory.
ghost use Rattle.std.specs.Prelude.{◌≡◌, [], true};

use ick_devices::{ByteSource, DeviceFault, Files};

/// Files that all have the same bytes, whatever their names. This source never fails.
#[derive(Drop)]
pub struct OneFile<'a> {
    bytes: &'a [u8],
    rest: &'a [u8],
}

impl<'a> OneFile<'a> {
    /// Returns files with these bytes. No file is open.
    pub fn new(bytes: &'a [u8]) -> OneFile<'a>
        ensures bytes { result.bytes.now ≡ bytes.entry.now }
        ensures rest { result.rest.now ≡ [] }
    {
        OneFile { bytes, rest: &[] }
    }
}

impl ByteSource for OneFile<'_> {
    ghost told = { true };

    ghost left = { λ s. s.rest.now };

    ghost failed = { λ _. 0 };

    fn failures(&self) -> u64 {
        0
    }

    fn read(&mut self, target: &mut [u8]) -> Result<usize, DeviceFault> {
        let count = self.rest.len().min(target.len());
        let (front, rest) = self.rest.split_at(count);
        target[..count].copy_from_slice(front);
        self.rest = rest;
        Ok(count)
    }
}

impl Files for OneFile<'_> {
    ghost named = { λ s _. s.bytes.now };

    fn open_named(&mut self, _name: &str) -> Result<(), DeviceFault> {
        self.rest = self.bytes;
        Ok(())
    }
}
