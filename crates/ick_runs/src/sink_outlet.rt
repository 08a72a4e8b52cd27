//! Lets a machine's output leave by a sink.

use ick_devices::{ByteSink, write_whole};
use ick_machine::{Outlet, OutletFault};

/// Writes a run's output to a sink.
#[derive(Drop)]
pub(crate) struct SinkOutlet<'w, W: ByteSink> {
    pub(crate) sink: &'w mut W,
}

impl<W: ByteSink> Outlet for SinkOutlet<'_, W> {
    ghost told = { W.told };

    ghost written = { λ outlet. W.written outlet.sink.now };

    ghost failed = { λ outlet. W.failed outlet.sink.now };

    ghost held = { λ outlet. outlet.sink.ghost_name };

    #[inline(always)]
    fn write(&mut self, text: &[u8]) -> Result<(), OutletFault> {
        match write_whole(self.sink, text) {
            Ok(()) => Ok(()),
            Err(_) => Err(OutletFault),
        }
    }
}
