//! The significant digits of the labels of statements, and of the labels that bodies use.

ghost use Rattle.std.specs.Prelude.{◌≡◌, ◌≤◌, ℕ, Bool, List, None, Option, Some, length};
ghost use Rattle.std.specs.Prelude.{MatchOption, option_and_then, option_map};
ghost use Rattle.ick_source.specs.Boundaries.{IsOpening};
ghost use Rattle.ick_source.specs.Digits.{SpellsSome};
ghost use Rattle.ick_source.specs.Position.{left_at};
ghost use Rattle.ick_source.specs.Statements.{Ends};
ghost use Rattle.ick_source.specs.Token.{IsWord};
ghost use Rattle.ick_source.specs.UsedLabels.{HasItsLabel, UsesAt, label_in};
ghost use Rattle.ick_syntax.specs.BodyTree.{BodyTree, body_tree_of, clamped_body};

use crate::bytes::{after_white, byte_at};
use crate::digits::significant_at;
use crate::position::{Position, skip_white};
use crate::token::word_at;
use ick_syntax::Body;

/// Returns the significant digits of the label with which an opening begins.
pub fn head_digits(text: &[u8], at: usize) -> Option<&[u8]>
    requires { at ≤ length text.now }
    ensures { (to : ℕ) (label : Option ℕ) (polite : Bool) →
        IsOpening text.now at to label polite → SpellsSome result label }
{
    if byte_at(text, at) != b'(' {
        return None;
    }
    Some(significant_at(text, after_white(text, at + 1)))
}

/// Returns the significant digits of the label that a body uses. The body begins at the byte
/// `begin`. Its numbers may be clamped.
pub fn used_digits<'a>(text: &'a [u8], begin: usize, body: &Body) -> Option<&'a [u8]>
    ensures { (head to : ℕ) (tree : Option BodyTree) → Ends text.now head begin to tree →
        body_tree_of body.now ≡ option_map clamped_body tree →
        SpellsSome result (option_and_then label_in tree) }
{
    let start = Position {
        at: begin,
        between: false,
    };
    let Some(before) = before_label(text, start, body) else {
        return None;
    };
    let number = skip_white(text, past(text, before, b"("));
    Some(significant_at(text, number.at.min(text.len())))
}

/// Returns the position before the label that a body uses, which begins at `start`.
fn before_label(text: &[u8], start: Position, body: &Body) -> Option<Position>
    ensures uses { (tree : BodyTree) → HasItsLabel (left_at text.now start) tree →
        body_tree_of body.now ≡ Some (clamped_body tree) →
        MatchOption result (label_in tree ≡ None) (λ p. UsesAt (left_at text.now p) tree) }
    ensures unrecognised { body_tree_of body.now ≡ None → result ≡ None }
{
    match body {
        Body::Next(_) => Some(start),
        Body::AbstainLabel(_) => Some(past(text, past(text, start, b"ABSTAIN"), b"FROM")),
        Body::ReinstateLabel(_) => Some(past(text, start, b"REINSTATE")),
        _ => None,
    }
}

/// Returns the position after this word. If the word isn't at `from`, the position has no meaning.
fn past(text: &[u8], from: Position, word: &[u8]) -> Position
    ensures { (to : List ℕ) → IsWord word.now (left_at text.now from) to →
        left_at text.now result ≡ to }
{
    match word_at(text, from, word) {
        Some(to) => to,
        None => from,
    }
}
