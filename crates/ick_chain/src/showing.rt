//! Finds the choices that are shown for rows, and for the runs that never end.

ghost use Rattle.std.specs.Prelude.{◌≡◌, ℕ, [], ◌∷◌, ◌++◌, true, Some, slice_get, OnOk};
ghost use Rattle.std.specs.Prelude.{IfOk, IfSome, IfNone};
ghost use Rattle.ick_code.specs.meaning.State.{State as Meant};
ghost use Rattle.ick_backtrack.specs.Asked.{finish_of};
ghost use Rattle.ick_outcomes.specs.Programs.{Program};
ghost use Rattle.ick_explorer.specs.Lines.{end_text};
ghost use Rattle.ick_numbers.specs.Values.{natural};
ghost use Rattle.ick_chain.specs.Chains.{IsChain, IsClosed};
ghost use Rattle.ick_chain.specs.Places.{AllSuit, IsFull, states_in};
ghost use Rattle.ick_chain.specs.Ranks.{IsEnd};
ghost use Rattle.ick_chain.specs.Rows.{rows_of};
ghost use Rattle.ick_chain.specs.Shown.{AreShown, IsShown, NeverEnds, choices_of};

use crate::chain::Node;
use crate::errors::ChainError;
use crate::products::are_equal;
use crate::row::Row;
use crate::search::asked;
use crate::visits::is_stuck;
use crate::walking::leads;
use crate::ways::Ways;
use ick_backtrack::{Ask, End};
use ick_bits::NoMemory;
use ick_numbers::Natural;
use ick_outcomes::{States, end_word};
use std::alloc::Global;

/// Returns true only if the output of a state and the text of an end are those of a row.
pub(crate) fn is_outcome<'c, P: States<'c>>(
    alloc: Global,
    program: &P,
    state: &P::State,
    end: End<'c>,
    row: &Row,
) -> Result<bool, NoMemory>
    requires { P.suits program.now state.now }
    ensures { IfOk result (λ yes. yes ≡ true →
        (row.now.output.items ≡ (P.seen program.now state.now).state.output)
        × (row.now.end.items ≡ end_text (finish_of end.entry))) }
{
    let word = end_word(alloc, end)?;
    Ok(program.output(state) == row.output.as_slice() && word.as_slice() == row.end.as_slice())
}

/// Returns true only if the run with these choices leads to a node and ends there with the outcome
/// of a row.
pub(crate) fn shows<'c, P: States<'c>>(
    alloc: Global,
    program: &P,
    states: &[P::State],
    nodes: &[Node],
    at: usize,
    choices: &[bool],
    row: &Row,
) -> Result<bool, NoMemory>
    requires states { AllSuit (P.suits program.now) states.now }
    requires full { IsFull (P.text program.now) (states_in (P.seen program.now) states.now)
        nodes.now }
    ensures shown { IfOk result (λ yes. yes ≡ true → (s : Meant) →
        slice_get (states_in (P.seen program.now) states.now) 0 ≡ Some s →
        IsShown (P.text program.now) s row.now.output.items row.now.end.items choices.now) }
    ensures ended { IfOk result (λ yes. yes ≡ true → IsEnd row.now.end.items) }
{
    if at >= states.len() || !leads(nodes, choices, at) {
        return Ok(false);
    }
    match asked(program, &states[at]) {
        Ask::Ended(end) => is_outcome(alloc, program, &states[at], end, row),
        Ask::Plain => Ok(false),
        Ask::Choice(_) => Ok(false),
    }
}

/// Returns the choices of the run of a row to the node with its rank.
fn show_row<'c, P: States<'c>>(
    alloc: Global,
    program: &P,
    states: &[P::State],
    nodes: &[Node],
    ways: &Ways,
    row: &Row,
) -> Result<Vec<bool>, ChainError>
    requires states { AllSuit (P.suits program.now) states.now }
    requires full { IsFull (P.text program.now) (states_in (P.seen program.now) states.now)
        nodes.now }
    ensures { IfOk result (λ choices. (s : Meant) →
        slice_get (states_in (P.seen program.now) states.now) 0 ≡ Some s →
        IsShown (P.text program.now) s row.now.output.items row.now.end.items choices.items) }
{
    let at = ways.node(row.rank.depth);
    let choices = ways.choices(alloc, at)?;
    if shows(alloc, program, states, nodes, at, &choices, row)? {
        return Ok(choices);
    }
    Err(ChainError::NotSolved)
}

/// Appends choices.
pub(crate) fn add_choices(shown: &mut Vec<Vec<bool>>, choices: Vec<bool>) -> Result<(), NoMemory>
    ensures { OnOk result (shown.new.items ≡ shown.old.items ++ choices ∷ []) }
{
    shown.push(choices)?;
    Ok(())
}

/// Returns for each row the choices of a run that has its outcome.
pub(crate) fn show_rows<'c, P: States<'c>>(
    alloc: Global,
    program: &P,
    states: &[P::State],
    nodes: &[Node],
    ways: &Ways,
    rows: &[Row],
) -> Result<Vec<Vec<bool>>, ChainError>
    requires states { AllSuit (P.suits program.now) states.now }
    requires full { IsFull (P.text program.now) (states_in (P.seen program.now) states.now)
        nodes.now }
    ensures { IfOk result (λ shown. (s : Meant) →
        slice_get (states_in (P.seen program.now) states.now) 0 ≡ Some s →
        AreShown (P.text program.now) s (rows_of rows.now) (choices_of shown.items)) }
{
    let mut shown = Vec::new(alloc);
    'rows: for at in 0..rows.len() {
        let choices = show_row(alloc, program, states, nodes, ways, &rows[at])?;
        add_choices(&mut shown, choices)?;
    }
    Ok(shown)
}

/// Returns the first stuck node in the order in which nodes were found, or 0 if there is none.
fn first_stuck(nodes: &[Node], ways: &Ways) -> usize {
    'nodes: for rank in 0..nodes.len() {
        let at = ways.node(rank);
        if is_stuck(nodes, at) {
            return at;
        }
    }
    0
}

/// Returns choices that lead to a state from which no run ends, or `None` if the runs that never
/// end weigh nothing.
pub(crate) fn show_never(
    alloc: Global,
    nodes: &[Node],
    ways: &Ways,
    never: &Natural,
) -> Result<Option<Vec<bool>>, ChainError>
    requires { IsClosed nodes.now }
    ensures some { IfOk result (λ found. IfSome found (λ choices. (p : Program)
        (seen : ℕ → Meant) → IsChain p seen nodes.now → NeverEnds p (seen 0) choices.items)) }
    ensures none { IfOk result (λ found. IfNone found (natural never.now ≡ 0)) }
{
    if are_equal(never, &Natural::zero(alloc)) {
        return Ok(None);
    }
    let at = first_stuck(nodes, ways);
    let choices = ways.choices(alloc, at)?;
    if is_stuck(nodes, at) && leads(nodes, &choices, at) {
        return Ok(Some(choices));
    }
    Err(ChainError::NotSolved)
}
