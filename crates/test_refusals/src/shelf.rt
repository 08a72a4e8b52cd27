//! Files in memory, which fail where a row says so.

ghost use Rattle.std.specs.Prelude.{[], false};

use crate::devices::WornSource;
use ick_devices::{ByteSource, DeviceFault, Files};

/// Two files: `f` has these bytes, and `e` has none. `source` reads the file that was opened last,
/// and `opened` counts how often a file was opened. To read them takes no memory.
#[derive(Drop)]
pub struct Shelf<'a> {
    pub bytes: &'a [u8],
    pub source: WornSource<'a>,
    pub opened: u64,
}

impl ByteSource for Shelf<'_> {
    ghost told = { false };

    ghost left = { λ _. [] };

    ghost failed = { λ s. s.source.failures };

    fn failures(&self) -> u64 {
        self.source.failures()
    }

    fn read(&mut self, target: &mut [u8]) -> Result<usize, DeviceFault> {
        self.source.read(target)
    }
}

impl Files for Shelf<'_> {
    ghost named = { λ _ _. [] };

    fn open_named(&mut self, name: &str) -> Result<(), DeviceFault> {
        if name == "f" {
            self.source.rest = self.bytes;
        } else if name == "e" {
            self.source.rest = b"";
        } else {
            self.source.failures += 1;
            return Err(DeviceFault);
        }
        self.opened = self.opened.saturating_add(1);
        Ok(())
    }
}
