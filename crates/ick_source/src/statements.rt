//! The statements of a text that may be refused, and all its faults.

ghost use Rattle.std.specs.Prelude.{◌<◌, ◌≤◌, ◌↔◌, IfErr, IfOk, IsErrOf, length};
ghost use Rattle.ick_source.specs.Listed.{IsListed, RefusesToList};
ghost use Rattle.ick_source.specs.Refusals.{longest};

use crate::all_faults::{FaultAt, all_faults};
use crate::refusals::Refusal;
use crate::seen::{Seen, see_all};
use crate::source::MOST_BYTES;
use std::alloc::{AllocError, Global};

/// The statements of a text, and its faults.
#[derive(Drop)]
pub struct Listed<'a> {
    /// The statements, in the order of the text. A number above 65,535 is 65,535 in them.
    pub statements: Vec<Seen<'a>>,
    /// Each kind of fault that refuses a text, with each statement that has it. A text without
    /// faults is a program.
    pub faults: Vec<FaultAt>,
}

/// Reads the statements of a text and finds all its faults, also if the text is refused.
///
/// The statements are those into which `read_source` cuts the text. Numbers out of range are
/// clamped in them. The faults are in the order in which `read_source` seeks them: by kinds, and
/// each kind by statements. So `read_source` refuses the text with the first of them. Too few and
/// too many polite statements are faults of the last statement. Labels are compared as they are
/// written, also if they are out of range.
///
/// Refuses with `TooLong` exactly if the text has more than 1,048,576 bytes (this profile), and
/// with `NoMemory` if the reader runs out of memory. Never refuses with `Fault`.
pub fn read_statements<'a>(alloc: Global, text: &'a [u8]) -> Result<Listed<'a>, Refusal>
    ensures listed { IfOk result (IsListed text.now) }
    ensures refused { IfErr result (RefusesToList text.now) }
    ensures too_long { IsErrOf result Refusal.TooLong ↔ (longest < length text.now) }
{
    if text.len() > MOST_BYTES {
        return Err(Refusal::TooLong);
    }
    match surveyed(alloc, text) {
        Ok(listed) => Ok(listed),
        Err(AllocError) => Err(Refusal::NoMemory),
    }
}

/// Reads the statements of a text that is not too long, and finds all its faults.
fn surveyed<'a>(alloc: Global, text: &'a [u8]) -> Result<Listed<'a>, AllocError>
    requires { length text.now ≤ longest }
    ensures { IfOk result (IsListed text.now) }
{
    let statements = see_all(alloc, text)?;
    let faults = all_faults(alloc, &statements)?;
    Ok(Listed { statements, faults })
}
