//! The files of the system. `Files` promises nothing of their bytes, because std promises nothing
//! of the bytes of a file.
ghost use Rattle.std.specs.Prelude.{◌≡◌, Some, [], false};
ghost use Rattle.std.specs.Option.{option_map_or};

use crate::counted::read_from;
use ick_devices::{ByteSource, DeviceFault, Files};
use std::fs::{self, File};
use std::io::{self, Read};
use std::os::fd::AsRawFd;

/// Reads the file that was opened last. If no file was opened, there is no byte to read.
#[derive(Drop)]
struct OpenFile<F> {
    file: Option<F>,
}

impl<F: Read> Read for OpenFile<F> {
    ghost remaining = { λ s. option_map_or F.remaining s.file (Some []) };

    fn read(&mut self, target: &mut [u8]) -> io::Result<usize> {
        match &mut self.file {
            Some(file) => file.read(target),
            None => Ok(0),
        }
    }
}

/// Opens files of the system, and reads the file that was opened last.
#[derive(Drop)]
pub struct DiskFiles<'r> {
    runtime: &'r HostRuntime,
    open: OpenFile<File>,
    failures: u64,
}

impl<'r> DiskFiles<'r> {
    /// Returns the files of the system. No file is open, and no call has failed.
    pub fn new(runtime: &'r HostRuntime) -> DiskFiles<'r>
        ensures { result.failures ≡ 0 }
    {
        DiskFiles {
            runtime,
            open: OpenFile { file: None },
            failures: 0,
        }
    }
}

impl ByteSource for DiskFiles<'_> {
    ghost told = { false };

    ghost left = { λ _. [] };

    ghost failed = { λ s. s.failures };

    fn failures(&self) -> u64 {
        self.failures
    }

    fn read(&mut self, target: &mut [u8]) -> Result<usize, DeviceFault> {
        read_from(&mut self.open, &mut self.failures, target)
    }
}

impl Files for DiskFiles<'_> {
    ghost named = { λ _ _. [] };

    fn open_named(&mut self, name: &str) -> Result<(), DeviceFault> {
        match open_apart(self.runtime, name) {
            Ok(file) => {
                self.open.file = Some(file);
                Ok(())
            }
            Err(_) => {
                self.failures += 1;
                Err(DeviceFault)
            }
        }
    }
}

/// Opens a file. If a standard stream is closed, the system gives its descriptor to the file, and a
/// run would read its source as its input. A duplicate never has a standard stream's descriptor.
fn open_apart(runtime: &HostRuntime, name: &str) -> io::Result<File> {
    let file = fs::open(runtime, name)?;
    if file.as_raw_fd() <= 2 {
        file.try_clone()
    } else {
        Ok(file)
    }
}
