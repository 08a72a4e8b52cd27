//! The code of a source.

use crate::failure::Failure;
use ick_code::{Code, compile};
use ick_source::read_source;
use std::alloc::Global;

/// Compiles a source, which must not be refused.
pub fn compiled<'a>(alloc: Global, source: &'a [u8]) -> Result<Code<'a>, Failure> {
    let Ok(program) = read_source(alloc, source) else {
        return Err(Failure::RefusedSource);
    };
    Ok(compile(alloc, &program)?)
}
