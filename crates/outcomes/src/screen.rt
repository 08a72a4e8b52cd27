//! The error stream, on which reports of long work may be shown.
ghost use Rattle.std.specs.Prelude.{◌≡◌, ◌+◌, ◌<◌, ◌≤◌, ◌^◌, [], false};

use ick_chain::{Progress, Report, progress_line};
use ick_devices::{ByteSink, DeviceFault, write_whole};
use std::alloc::Global;

/// Writes messages to one sink. If reports are shown, their lines go to another sink, until a write
/// of one fails. Both sinks are of one stream.
#[derive(Drop)]
pub struct Screen<E: Drop, L: Drop> {
    messages: E,
    lines: L,
    shows: bool,
    /// Whether a report was shown that has to be removed.
    is_marked: bool,
    alloc: Global,
}

impl<E: ByteSink + Drop, L: ByteSink + Drop> Screen<E, L> {
    /// Returns a screen of two sinks that have not failed.
    pub fn new(alloc: Global, messages: E, lines: L, shows: bool) -> Screen<E, L>
        ensures messages { result.messages ≡ messages }
        ensures shows { result.shows ≡ shows }
    {
        Screen {
            messages,
            lines,
            shows,
            is_marked: false,
            alloc,
        }
    }

    /// Writes the line of a report, unless a line was not written.
    fn write_line(&mut self, report: Report)
        ensures messages { self.new.messages ≡ self.old.messages }
        ensures shows { self.new.shows ≡ self.old.shows }
    {
        if self.lines.failures() > 0 {
            return;
        }
        if let Ok(line) = progress_line(self.alloc, report) {
            let _ = write_whole(&mut self.lines, line.as_slice());
        }
    }
}

impl<E: ByteSink + Drop, L: ByteSink + Drop> ByteSink for Screen<E, L> {
    ghost told = { false };

    ghost written = { λ _. [] };

    ghost failed = { λ s. E.failed s.messages };

    fn failures(&self) -> u64 {
        self.messages.failures()
    }

    fn write(&mut self, text: &[u8]) -> Result<usize, DeviceFault> {
        self.messages.write(text)
    }
}

impl<E: ByteSink + Drop, L: ByteSink + Drop> Progress for Screen<E, L> {
    ghost shows = { λ s. s.shows };

    /// Shows the line of a report. Nothing is removed if nothing was shown.
    fn show(&mut self, report: Report) {
        if !self.shows {
            return;
        }
        let is_over = matches!(report, Report::Over);
        if is_over && !self.is_marked {
            return;
        }
        self.is_marked = !is_over;
        self.write_line(report);
    }
}
