//! Lists the outcomes of a program without a limit.

ghost use Rattle.std.specs.Prelude.{◌≡◌, ℕ, ◌+◌, Some, length, slice_get, IfOk, IfSome, IfNone};
ghost use Rattle.ick_code.specs.meaning.State.{State as Meant};
ghost use Rattle.ick_numbers.specs.Values.{natural, naturals};
ghost use Rattle.ick_chain.specs.Answers.{IsAnswer};
ghost use Rattle.ick_chain.specs.Chains.{never, passing};
ghost use Rattle.ick_chain.specs.Fewest.{AreFewest};
ghost use Rattle.ick_chain.specs.Places.{state_or, states_in};
ghost use Rattle.ick_chain.specs.Ranks.{AreNumbered};
ghost use Rattle.ick_chain.specs.Rows.{AreRows, any_outcome, rows_of, weight_of};
ghost use Rattle.ick_chain.specs.Shown.{AreShown, NeverEnds, choices_of};

use crate::answer::Answer;
use crate::errors::ChainError;
use crate::fewest::{least_labels, show_fewest};
use crate::never::never_of;
use crate::row::Row;
use crate::rows::rows_at;
use crate::showing::{show_never, show_rows};
use crate::ways::{Ways, find_first, find_ways, ranks};
use crate::words::Labels;
use ick_bits::NoMemory;
use ick_numbers::Natural;
use ick_outcomes::States;
use std::alloc::Global;

/// The outcomes of a program.
#[derive(Drop)]
pub struct Outcomes {
    /// Each outcome once, with the weight of its runs in parts, in no order.
    pub rows: Vec<Row>,
    /// For each row the choices of the first of those of its runs that have the fewest choices.
    pub shown: Vec<Vec<bool>>,
    /// For each row the choices of a run that has its outcome: the first of its runs in the
    /// listing, if no cycle is on any way to the outcome.
    pub first: Vec<Vec<bool>>,
    /// The weight of the runs that never end, in parts.
    pub never: Natural,
    /// Choices that lead to a state from which no end can be reached, or `None` if the runs that
    /// never end weigh nothing.
    pub stuck: Option<Vec<bool>>,
}

/// Returns the rows of an answer. They have the least numbers of their nodes.
fn rows_of_answer<'c, P: States<'c>>(
    alloc: Global,
    program: &P,
    answer: &Answer<P::State>,
    labels: &Labels,
    first: &Ways,
) -> Result<Vec<Row>, NoMemory>
    requires answer { IsAnswer (P.text program.now) (P.seen program.now) (P.suits program.now)
        answer.now }
    requires labels { length labels.now.of.items ≡ length answer.now.chain.nodes.items }
    ensures rows { IfOk result (λ rows. (d : Meant) → AreRows (λ q. passing (λ i. q (state_or d
        (states_in (P.seen program.now) answer.now.chain.states.items) i))
        answer.now.chain.nodes.items (naturals answer.now.visits.items)) (rows_of rows.items)) }
    ensures ranked { IfOk result (λ rows. AreNumbered (P.text program.now)
        (states_in (P.seen program.now) answer.now.chain.states.items)
        answer.now.chain.nodes.items labels.now.of.items rows.items) }
{
    let ranks = ranks(alloc, labels, first)?;
    rows_at(
        alloc,
        program,
        &answer.chain.states,
        &answer.chain.nodes,
        &answer.visits,
        &ranks,
    )
}

/// Lists the outcomes of an answer that `weigh` returned for this program. Each outcome comes once,
/// with the weight of all its runs. The weights of all outcomes and that of the runs that never end
/// are 1 together. Two runs are shown for each outcome, and one for the runs that never end. This
/// contract doesn't say which run `first` has: `exact_listing` checks it.
///
/// `NoMemory` means that a request for memory was refused. `NotSolved` means that a run that would
/// be shown didn't come to its end, or that it may not be the first of those with the fewest
/// choices. No program is known that gets it.
pub fn list_outcomes<'c, P: States<'c>>(
    alloc: Global,
    program: &P,
    answer: &Answer<P::State>,
) -> Result<Outcomes, ChainError>
    requires { IsAnswer (P.text program.now) (P.seen program.now) (P.suits program.now)
        answer.now }
    ensures rows { IfOk result (λ all. (d : Meant) → AreRows (λ q. passing (λ i. q (state_or d
        (states_in (P.seen program.now) answer.now.chain.states.items) i))
        answer.now.chain.nodes.items (naturals answer.now.visits.items)) (rows_of all.rows.items)) }
    ensures never { IfOk result (λ all. natural all.never
        ≡ never answer.now.chain.nodes.items (naturals answer.now.visits.items)) }
    ensures whole { IfOk result (λ all.
        weight_of any_outcome (rows_of all.rows.items) + natural all.never
        ≡ natural answer.now.parts) }
    ensures shown { IfOk result (λ all. (s : Meant) →
        slice_get (states_in (P.seen program.now) answer.now.chain.states.items) 0 ≡ Some s →
        AreFewest (P.text program.now) s (rows_of all.rows.items) (choices_of all.shown.items)) }
    ensures first { IfOk result (λ all. (s : Meant) →
        slice_get (states_in (P.seen program.now) answer.now.chain.states.items) 0 ≡ Some s →
        AreShown (P.text program.now) s (rows_of all.rows.items) (choices_of all.first.items)) }
    ensures stuck { IfOk result (λ all. IfSome all.stuck (λ choices. (s : Meant) →
        slice_get (states_in (P.seen program.now) answer.now.chain.states.items) 0 ≡ Some s →
        NeverEnds (P.text program.now) s choices.items)) }
    ensures ends { IfOk result (λ all. IfNone all.stuck (natural all.never ≡ 0)) }
{
    let states = &answer.chain.states;
    let nodes = &answer.chain.nodes;
    let ways = find_ways(alloc, nodes)?;
    let first_ways = find_first(alloc, nodes)?;
    let labels = least_labels(alloc, nodes, &ways)?;
    let rows = rows_of_answer(alloc, program, answer, &labels, &first_ways)?;
    let never = never_of(alloc, nodes, &answer.visits)?;
    let shown = show_fewest(alloc, program, states, nodes, &ways, &labels, &rows)?;
    let stuck = show_never(alloc, nodes, &ways, &never)?;
    let first = show_rows(alloc, program, states, nodes, &first_ways, &rows)?;
    Ok(Outcomes {
        rows,
        shown,
        first,
        never,
        stuck,
    })
}
