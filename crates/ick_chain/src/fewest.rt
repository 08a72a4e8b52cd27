//! Finds for each row the first of those of its runs that have the fewest choices.

ghost use Rattle.std.specs.Prelude.{◌≡◌, ℕ, [], ◌∷◌, ◌++◌, Some, length, slice_get, IfOk, OnOk};
ghost use Rattle.ick_code.specs.meaning.State.{State as Meant};
ghost use Rattle.ick_chain.specs.Fewest.{AreFewest, IsLabelled};
ghost use Rattle.ick_chain.specs.Places.{AllSuit, IsFull, states_in};
ghost use Rattle.ick_chain.specs.Ranks.{AreNumbered};
ghost use Rattle.ick_chain.specs.Rows.{AreDistinct, rows_of};
ghost use Rattle.ick_chain.specs.Shown.{choices_of};
ghost use Rattle.ick_chain.specs.Words.{AreLeast, AreWords};

use crate::chain::Node;
use crate::errors::ChainError;
use crate::row::Row;
use crate::showing::{add_choices, shows};
use crate::ways::{Ways, labels};
use crate::words::{Labels, are_least, is_word};
use ick_outcomes::States;
use std::alloc::Global;

/// Returns for each node the least list of choices that leads to it. `NotSolved` means that the
/// ways don't have them.
pub(crate) fn least_labels(alloc: Global, nodes: &[Node], ways: &Ways) -> Result<Labels, ChainError>
    ensures words { IfOk result (λ labels. AreWords labels.words.items) }
    ensures least { IfOk result (λ labels. AreLeast nodes.now labels) }
    ensures long { IfOk result (λ labels. length labels.of.items ≡ length nodes.now) }
{
    let labels = labels(alloc, ways)?;
    if labels.of.len() != nodes.len() || !are_least(nodes, &labels) {
        return Err(ChainError::NotSolved);
    }
    Ok(labels)
}

/// Returns the choices of the run of a row, by the number that is its rank.
fn show_row<'c, P: States<'c>>(
    alloc: Global,
    program: &P,
    states: &[P::State],
    nodes: &[Node],
    ways: &Ways,
    labels: &Labels,
    row: &Row,
) -> Result<Vec<bool>, ChainError>
    requires states { AllSuit (P.suits program.now) states.now }
    requires full { IsFull (P.text program.now) (states_in (P.seen program.now) states.now)
        nodes.now }
    requires words { AreWords labels.now.words.items }
    ensures { IfOk result (λ choices. (s : Meant) →
        slice_get (states_in (P.seen program.now) states.now) 0 ≡ Some s →
        IsLabelled (P.text program.now) s labels.now row.now choices.items) }
{
    let number = row.rank.breadth;
    if number >= labels.ends.len() {
        return Err(ChainError::NotSolved);
    }
    let at = labels.ends[number];
    let choices = ways.choices(alloc, at)?;
    if !is_word(&labels.words, number, &choices) {
        return Err(ChainError::NotSolved);
    }
    if shows(alloc, program, states, nodes, at, &choices, row)? {
        return Ok(choices);
    }
    Err(ChainError::NotSolved)
}

/// Returns for each row the first of those of its runs that have the fewest choices. The labels
/// must be the least, and the ranks of the rows must be the least numbers of their nodes.
pub(crate) fn show_fewest<'c, P: States<'c>>(
    alloc: Global,
    program: &P,
    states: &[P::State],
    nodes: &[Node],
    ways: &Ways,
    labels: &Labels,
    rows: &[Row],
) -> Result<Vec<Vec<bool>>, ChainError>
    requires states { AllSuit (P.suits program.now) states.now }
    requires full { IsFull (P.text program.now) (states_in (P.seen program.now) states.now)
        nodes.now }
    requires words { AreWords labels.now.words.items }
    requires least { AreLeast nodes.now labels.now }
    requires distinct { AreDistinct (rows_of rows.now) }
    requires ranked { AreNumbered (P.text program.now) (states_in (P.seen program.now) states.now)
        nodes.now labels.now.of.items rows.now }
    ensures { IfOk result (λ shown. (s : Meant) →
        slice_get (states_in (P.seen program.now) states.now) 0 ≡ Some s →
        AreFewest (P.text program.now) s (rows_of rows.now) (choices_of shown.items)) }
{
    let mut shown = Vec::new(alloc);
    'rows: for at in 0..rows.len() {
        let choices = show_row(alloc, program, states, nodes, ways, labels, &rows[at])?;
        add_choices(&mut shown, choices)?;
    }
    Ok(shown)
}
