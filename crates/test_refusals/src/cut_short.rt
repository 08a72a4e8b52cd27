//! Calls of the command line whose writer fails at each byte.

use crate::context::Context;
use crate::failure::Failure;
use crate::served::{Rooms, say_status, served};
use test_rows::Row;

/// Whether a call left the first bytes of its whole output, and then said that the writer failed
/// if the error stream takes that line.
fn is_cut_short(context: &Context<'_>, code: u8, whole: &[u8], room: usize, is_said: bool) -> bool {
    let (output, error_text) = (context.answer.bytes(), context.errors.bytes());
    if room >= whole.len() {
        return code == 0 && output == whole && error_text.is_empty();
    }
    let line = if is_said {
        b"WRITE FAILED\n".as_slice()
    } else {
        b""
    };
    code == 4 && output == &whole[..room] && error_text == line
}

/// Calls `serve` over writers that take from no byte of the whole output to all, and over an error
/// stream that takes all bytes or none. The answer is how many calls left what they must, or what
/// the first other call left.
pub fn cut_short(context: &mut Context<'_>, row: &Row) -> Result<(), Failure> {
    let whole = row.field(b"whole");
    let mut right = 0u64;
    for room in 0..=whole.len() {
        for errors in [u64::MAX, 0] {
            context.answer.clear();
            let rooms = Rooms {
                output: room as u64,
                errors,
            };
            let left = served(context, row, rooms)?;
            if !is_cut_short(context, left.code, whole, room, errors > 0) {
                say_status(context, left.code);
                return Ok(());
            }
            right = right.saturating_add(1);
        }
    }
    context.answer.clear();
    context.answer.say(b"right ");
    context.answer.count(right, b"");
    Ok(())
}
