//! What an attempt at a row has at hand.

use crate::buffer::Buffer;
use crate::devices::WornSink;
use std::alloc::{AllocError, Global};

/// The runtime, the answer, a further buffer, and the streams of `serve`.
#[derive(Drop)]
pub struct Context<'r> {
    rt: &'r HostRuntime,
    /// The answer to the row so far.
    pub answer: Buffer,
    /// What was seen before a call, or the line for the row.
    pub other: Buffer,
    pub output: WornSink,
    pub errors: WornSink,
}

impl<'r> Context<'r> {
    /// Takes the room of the buffers.
    pub fn new(rt: &'r HostRuntime) -> Result<Context<'r>, AllocError> {
        let answer = Buffer::new(rt.alloc())?;
        let other = Buffer::new(rt.alloc())?;
        let output = WornSink::new(rt.alloc())?;
        let errors = WornSink::new(rt.alloc())?;
        Ok(Context {
            rt,
            answer,
            other,
            output,
            errors,
        })
    }

    /// Returns the allocator.
    pub fn alloc(&self) -> Global {
        self.rt.alloc()
    }

    /// Writes the name of a call that was refused memory to standard error.
    pub fn tell_refused(&self, call: &str) {
        let _ = eprintln!(self.rt; "refused: {call}");
    }

    /// Writes the name of a machine's call that was refused memory to standard error.
    pub fn tell_refused_of(&self, call: &str, machine: &str) {
        let _ = eprintln!(self.rt; "refused: {call} of {machine}");
    }
}
