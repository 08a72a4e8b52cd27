//! Reads the statements of a text that may be refused.

ghost use Rattle.std.specs.Prelude.{◌≡◌, ◌+◌, ◌*◌, ◌≤◌, ℕ, [], IfOk, MatchOption, length};
ghost use Rattle.std.specs.Prelude.{option_and_then, option_map};
ghost use Rattle.ick_source.specs.Boundaries.{IsStart};
ghost use Rattle.ick_source.specs.Digits.{SpellsSome};
ghost use Rattle.ick_source.specs.Refusals.{longest};
ghost use Rattle.ick_source.specs.Seen.{Sees, SeesText};
ghost use Rattle.ick_source.specs.SeenAnswers.{HasSeenUpTo};
ghost use Rattle.ick_source.specs.Statements.{IsStatement};
ghost use Rattle.ick_source.specs.UsedLabels.{label_in};
ghost use Rattle.ick_syntax.specs.BodyTree.{body_tree_of, clamped_body};
ghost use Rattle.ick_syntax.specs.StatementTree.{StatementTree};

use crate::boundaries::{next_boundary, opening_at};
use crate::bytes::after_white;
use crate::label_digits::{head_digits, used_digits};
use crate::parsed::Scanned;
use crate::qualifiers::qualifiers_at;
use crate::statement_reader::{statement_at, trimmed};
use ick_syntax::{Body, Faults, Statement};
use std::alloc::{AllocError, Global};

/// A statement of a text, which may be refused.
#[derive(Drop)]
pub struct Seen<'a> {
    /// The statement. A number above 65,535 is 65,535 in it.
    pub statement: Statement<'a>,
    /// The kinds of numbers out of range that the statement has.
    pub faults: Faults,
    /// The digits of the statement's label without zeros before them, or `None`.
    pub label: Option<&'a [u8]>,
    /// The digits of the label that the body uses, without zeros before them, or `None`.
    pub used: Option<&'a [u8]>,
}

/// Reads the statement that starts at `at`, and the position after it. Returns `None` if no
/// statement starts there.
fn seen_at<'a>(
    alloc: Global,
    text: &'a [u8],
    at: usize,
    number: u32,
) -> Result<Option<Scanned<Seen<'a>, usize>>, AllocError>
    requires { at ≤ length text.now }
    ensures { IfOk result (λ r. MatchOption r (IsStart text.now at → ⊥) (λ x.
        ((t : StatementTree) × IsStatement text.now at x.to t × Sees x.value t)
        × (x.value.statement.number ≡ number))) }
{
    let next = match statement_at(alloc, text, at, number) {
        Err(refused) => return Err(refused),
        Ok(next) => next,
    };
    let Some(read) = next else {
        return Ok(None);
    };
    let used = used_at(text, at, &read.value.body);
    Ok(Some(Scanned {
        value: Seen {
            statement: read.value,
            faults: read.faults,
            label: head_digits(text, at),
            used,
        },
        to: read.to,
    }))
}

/// Returns the significant digits of the label that the body of a statement uses. The statement
/// starts at `at`. Its numbers may be clamped.
fn used_at<'a>(text: &'a [u8], at: usize, body: &Body) -> Option<&'a [u8]>
    requires { at ≤ length text.now }
    ensures { (to : ℕ) (t : StatementTree) → IsStatement text.now at to t →
        body_tree_of body.now ≡ option_map clamped_body t.body →
        SpellsSome result (option_and_then label_in t.body) }
{
    let Some(start) = opening_at(text, at) else {
        return None;
    };
    let qualifiers = qualifiers_at(text, start.to);
    used_digits(text, after_white(text, qualifiers.to), body)
}

/// Reads the bytes before the first start as a statement of their own, unless all are white.
/// Returns the position of that start or of the end of the text.
fn see_front<'a>(seen: &mut Vec<Seen<'a>>, text: &'a [u8]) -> Result<usize, AllocError>
    requires { seen.old.items ≡ [] }
    ensures read { IfOk result (λ to. HasSeenUpTo text.now to seen.new.items) }
    ensures count { IfOk result (λ to. 2 * length seen.new.items ≤ to + 1) }
{
    let begin = after_white(text, 0);
    let start = next_boundary(text, 0);
    if begin >= start {
        return Ok(start);
    }
    let statement = Statement {
        label: None,
        polite: false,
        abstained: false,
        chance: 100,
        body: Body::Unrecognised,
        text: trimmed(text, begin, start),
        number: 1,
    };
    seen.push(Seen {
        statement,
        faults: Faults::NONE,
        label: None,
        used: None,
    })?;
    Ok(start)
}

/// Reads all statements of a text, whether they make a program or not.
pub fn see_all<'a>(alloc: Global, text: &'a [u8]) -> Result<Vec<Seen<'a>>, AllocError>
    requires { length text.now ≤ longest }
    ensures seen { IfOk result (λ all. SeesText text.now all.items) }
    ensures size { IfOk result (λ all. 2 * length all.items ≤ length text.now + 1) }
{
    let mut seen = Vec::new(alloc);
    let mut at = see_front(&mut seen, text)?;
    'statements: loop {
        let number = seen.len() as u32 + 1;
        let Some(next) = seen_at(alloc, text, at, number)? else {
            return Ok(seen);
        };
        seen.push(next.value)?;
        at = next.to;
    }
}
