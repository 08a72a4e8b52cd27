//! Finds where the reading of an unrecognised statement stops, and what is wanted there.

ghost use Rattle.std.specs.Prelude.{◌≡◌, ◌≢◌, ◌≤◌, ℕ, IfOk, MatchOption, None, length};
ghost use Rattle.ick_source.specs.Position.{left_at, past_white};
ghost use Rattle.ick_source.specs.Statements.{IsRecognised, IsStatement};
ghost use Rattle.ick_source.specs.StopAnswers.{IsStopFrom, IsStopOf, place_of};
ghost use Rattle.ick_syntax.specs.BodyTree.{BodyTree};
ghost use Rattle.ick_syntax.specs.StatementTree.{StatementTree};

use crate::body_bytes::{boundary_after, discard};
use crate::boundaries::opening_at;
use crate::bytes::after_white;
use crate::cursor::Cursor;
use crate::parsed::Unread;
use crate::position::{Position, skip_white};
use crate::qualifiers::qualifiers_at;
use crate::wanted::Wanted;
use ick_bits::NoMemory;
use ick_syntax::Faults;
use std::alloc::{AllocError, Global};

/// Where the reading of an unrecognised statement stops, and what is wanted there.
#[derive(Clone, Copy, Debug)]
pub struct Stop {
    /// The byte before which reading stops. White bytes are passed.
    pub at: usize,
    /// Whether reading stops between the two characters of the `!` before that byte.
    pub within: bool,
    /// What is wanted there.
    pub wanted: Wanted,
}

/// Returns where the reading of the statement that starts at the byte `at` stops, and what is
/// wanted there. Returns `None` if the statement is recognised, or if no statement starts there.
///
/// Reading goes as far as the bytes are those of a body (Revised Manual, 4.4). If they are a whole
/// body, it stops behind it, where the statement should end. Runs out of memory as `read_source`
/// does.
pub fn stop_of(alloc: Global, text: &[u8], at: usize) -> Result<Option<Stop>, NoMemory>
    ensures { IfOk result (λ r. MatchOption r
        ((to : ℕ) (tree : StatementTree) → IsStatement text.now at to tree → tree.body ≢ None)
        (IsStopOf text.now at)) }
{
    if at > text.len() {
        return Ok(None);
    }
    let Some(start) = opening_at(text, at) else {
        return Ok(None);
    };
    let qualifiers = qualifiers_at(text, start.to);
    match stop_from(alloc, text, after_white(text, qualifiers.to)) {
        Ok(stop) => Ok(stop),
        Err(AllocError) => Err(NoMemory),
    }
}

/// Returns where the reading of the body that begins at a byte stops, unless it is recognised.
fn stop_from(alloc: Global, text: &[u8], begin: usize) -> Result<Option<Stop>, AllocError>
    requires { begin ≤ length text.now }
    ensures { IfOk result (λ r. MatchOption r
        ((to : ℕ) × (tree : BodyTree) × IsRecognised text.now begin to tree)
        (IsStopFrom text.now begin)) }
{
    let at = Position {
        at: begin,
        between: false,
    };
    let mut cursor = Cursor {
        alloc,
        text,
        at,
        faults: Faults::NONE,
        refusal: None,
    };
    discard(cursor.body());
    match cursor.refusal {
        Some(unread) => match unread {
            Unread::NoMemory => Err(AllocError),
            Unread::Absent(wanted) => Ok(Some(placed(text, cursor.at, wanted))),
        },
        None => match boundary_after(text, cursor.at) {
            None => Ok(Some(placed(text, cursor.at, Wanted::End))),
            Some(_) => Ok(None),
        },
    }
}

/// Returns the place after any white bytes at a position.
fn placed(text: &[u8], position: Position, wanted: Wanted) -> Stop
    ensures place { left_at text.now (place_of result) ≡ past_white (left_at text.now position) }
    ensures wanted { result.wanted ≡ wanted }
{
    let place = skip_white(text, position);
    Stop {
        at: place.at,
        within: place.between,
        wanted,
    }
}
