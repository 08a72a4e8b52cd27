//! Where the parts of a statement's head are.

ghost use Rattle.std.specs.Prelude.{ℕ, ◌≡◌, ◌≤◌, length, IfSome, MatchOption};
ghost use Rattle.ick_places.specs.Heads.{IsChancePlace, IsNegationPlace, IsPlacedHead};
ghost use Rattle.ick_places.specs.Heads.{IsPlacedOpening, ArePlacedQualifiers};
ghost use Rattle.ick_source.specs.Boundaries.{IsStart};

use ick_source::boundaries::{identifier_at, label_in};
use ick_source::bytes::after_white;
use ick_source::parsed::Scanned;
use ick_source::qualifiers::{chance_at, negated_at};

/// The bytes from `from` up to `to`.
#[derive(Clone, Copy)]
pub struct Span {
    pub from: usize,
    pub to: usize,
}

/// The label of a statement, if it has one, and its identifier.
#[derive(Clone, Copy)]
struct Opening {
    label: Option<Span>,
    identifier: Span,
}

/// The qualifiers of a statement that it has.
#[derive(Clone, Copy)]
struct Qualifiers {
    negation: Option<Span>,
    chance: Option<Span>,
}

/// The parts of a statement's head that it has, and the byte after any white bytes behind them, at
/// which its body begins.
#[derive(Clone, Copy)]
pub struct Head {
    /// The label with its parentheses.
    pub label: Option<Span>,
    /// `PLEASE DO`, `PLEASE` or `DO`.
    pub identifier: Span,
    /// `NOT` or `N'T`.
    pub negation: Option<Span>,
    /// `%` and its number.
    pub chance: Option<Span>,
    pub begin: usize,
}

/// Finds the label and the identifier at `at`. Returns `None` if no statement starts there.
fn opening_of(text: &[u8], at: usize) -> Option<Opening>
    requires { at ≤ length text.now }
    ensures opening { MatchOption result (IsStart text.now at → ⊥)
        (λ o. IsPlacedOpening text.now at o.label o.identifier) }
    ensures within { IfSome result (λ o. o.identifier.to ≤ length text.now) }
{
    let (label, next) = match label_in(text, at) {
        Some(label) => {
            let span = Span {
                from: at,
                to: label.to,
            };
            (Some(span), after_white(text, label.to))
        }
        None => (None, at),
    };
    let Some(found) = identifier_at(text, next) else {
        return None;
    };
    let identifier = Span {
        from: next,
        to: found.to,
    };
    Some(Opening { label, identifier })
}

/// Finds NOT or N'T after any white bytes, and the position after it, or `at` if it isn't there.
fn negation_of(text: &[u8], at: usize) -> Scanned<Option<Span>, usize>
    requires { at ≤ length text.now }
    ensures place { IsNegationPlace text.now at result.to result.value }
    ensures within { result.to ≤ length text.now }
{
    let found = negated_at(text, at);
    if !found.value {
        return Scanned {
            value: None,
            to: found.to,
        };
    }
    let span = Span {
        from: after_white(text, at),
        to: found.to,
    };
    Scanned {
        value: Some(span),
        to: found.to,
    }
}

/// Finds a percentage after any white bytes, and the position after it, or `at` if there is none.
fn chance_of(text: &[u8], at: usize) -> Scanned<Option<Span>, usize>
    requires { at ≤ length text.now }
    ensures place { IsChancePlace text.now at result.to result.value }
    ensures within { result.to ≤ length text.now }
{
    let found = chance_at(text, at);
    let Some(_) = found.value else {
        return Scanned {
            value: None,
            to: found.to,
        };
    };
    let span = Span {
        from: after_white(text, at),
        to: found.to,
    };
    Scanned {
        value: Some(span),
        to: found.to,
    }
}

/// Finds the qualifiers at `at`, and the position after them.
fn qualifiers_of(text: &[u8], at: usize) -> Scanned<Qualifiers, usize>
    requires { at ≤ length text.now }
    ensures places { ArePlacedQualifiers text.now at result.to result.value.negation
        result.value.chance }
    ensures within { result.to ≤ length text.now }
{
    let before = negation_of(text, at);
    let chance = chance_of(text, before.to);
    let after = if before.value.is_some() {
        Scanned {
            value: before.value,
            to: chance.to,
        }
    } else {
        negation_of(text, chance.to)
    };
    let value = Qualifiers {
        negation: after.value,
        chance: chance.value,
    };
    Scanned {
        value,
        to: after.to,
    }
}

/// Finds the head of the statement that starts at `at`. Returns `None` if no statement starts
/// there.
pub fn head_at(text: &[u8], at: usize) -> Option<Head>
    requires { at ≤ length text.now }
    ensures { MatchOption result (IsStart text.now at → ⊥) (IsPlacedHead text.now at) }
{
    let Some(opening) = opening_of(text, at) else {
        return None;
    };
    let qualifiers = qualifiers_of(text, opening.identifier.to);
    Some(Head {
        label: opening.label,
        identifier: opening.identifier,
        negation: qualifiers.value.negation,
        chance: qualifiers.value.chance,
        begin: after_white(text, qualifiers.to),
    })
}
