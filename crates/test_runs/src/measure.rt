//! Runs whose steps can be measured (`bench/machines.py`, `bench/statements.py`).
//!
//! The first argument is LIMIT, the greatest number of steps of a run, below 2^32. Each further
//! argument is a MACHINE: `copied`, `trailed` or `live`. Each run has an empty input and no
//! choices. For each MACHINE a line has its name and the number of steps that its run made.

use crate::failure::Failure;
use crate::fields::code_of;
use crate::steps::append_steps;
use std::alloc::Global;
use std::env::Args;

/// Makes the runs of a source that the arguments ask for, and appends a line for each.
pub fn measure(
    alloc: Global,
    source: &[u8],
    arguments: &mut Args<Global>,
    out: &mut Vec<u8>,
) -> Result<(), Failure> {
    let Some(word) = arguments.next() else {
        return Err(Failure::Number);
    };
    let Ok(limit) = word.parse::<u32>() else {
        return Err(Failure::Number);
    };
    let code = code_of(alloc, source)?;
    for name in arguments {
        append_steps(alloc, &code, limit, name.as_str(), out)?;
    }
    Ok(())
}
