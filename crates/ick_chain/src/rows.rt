//! Joins the ended nodes of a chain to rows, each outcome once.

ghost use Rattle.std.specs.Prelude.{◌≡◌, ◌+◌, ◌<◌, ℕ, List, length, slice_get, OnOk, IfOk, Some};
ghost use Rattle.ick_code.specs.meaning.Move.{ended};
ghost use Rattle.ick_outcomes.specs.Programs.{ask};
ghost use Rattle.ick_code.specs.meaning.State.{Ending, State as Meant};
ghost use Rattle.ick_backtrack.specs.Asked.{asked_at_end, finish_of, finished};
ghost use Rattle.ick_explorer.specs.Lines.{end_text};
ghost use Rattle.ick_numbers.specs.Values.{natural, naturals};
ghost use Rattle.ick_outcomes.specs.Tallies.{Test as OutcomeTest};
ghost use Rattle.ick_chain.specs.declared.chain.Node.TheVariants.{Ends as ends};
ghost use Rattle.ick_chain.specs.Chains.{passing, passing_at};
ghost use Rattle.ick_chain.specs.Limits.{all_if};
ghost use Rattle.ick_chain.specs.Places.{AllSuit, IsFull, state_or, states_in};
ghost use Rattle.ick_chain.specs.Ranks.{AreRanked, HasRank, IsRankedRow};
ghost use Rattle.ick_chain.specs.declared.ways.Rank.{Rank as Ranked};
ghost use Rattle.ick_chain.specs.Rows.{AreDistinct, AreRows, RowsGrow, rows_of, weight_if};
ghost use Rattle.ick_chain.specs.Tallied.{of_states};

use crate::chain::Node;
use crate::filing::{Table, add_row, no_rows};
use crate::row::Row;
use crate::search::asked;
use crate::ways::Rank;
use ick_backtrack::{Ask, End};
use ick_bits::NoMemory;
use ick_numbers::Natural;
use ick_outcomes::{States, end_word};
use std::alloc::Global;

/// Returns the rank at an index, or the greatest if there is none.
fn rank_at(ranks: &[Rank], at: usize) -> Rank
    ensures { (k : Ranked) → slice_get ranks.now at ≡ Some k → result ≡ k }
{
    if at < ranks.len() {
        return ranks[at];
    }
    Rank {
        breadth: usize::MAX,
        depth: usize::MAX,
    }
}

/// Returns the row of the runs that end so in a state, with a weight.
fn ended_row<'c, P: States<'c>>(
    alloc: Global,
    program: &P,
    state: &P::State,
    end: End<'c>,
    weight: &Natural,
    rank: Rank,
) -> Result<Row, NoMemory>
    requires { asked_at_end (finish_of end)
        ≡ Some (ask (P.text program.now) (P.seen program.now state.now).state) }
    ensures weighs { IfOk result (λ row. (q : OutcomeTest) →
        all_if (q row.output.items row.end.items) (natural row.weight)
        ≡ all_if (of_states q (P.seen program.now state.now).state) (natural weight.now)) }
    ensures output { IfOk result (λ row.
        row.output.items ≡ (P.seen program.now state.now).state.output) }
    ensures end { IfOk result (λ row. row.end.items ≡ end_text (finish_of end.entry)) }
    ensures rank { IfOk result (λ row. row.rank ≡ rank) }
{
    let output = Vec::from_slice(alloc, program.output(state))?;
    let end = end_word(alloc, end)?;
    let weight = weight.copy()?;
    Ok(Row {
        output,
        end,
        weight,
        rank,
    })
}

/// Returns the row of the runs that end in a state, or `None` if its node goes on.
fn row_at<'c, P: States<'c>>(
    alloc: Global,
    program: &P,
    state: &P::State,
    node: Node,
    weight: &Natural,
    rank: Rank,
) -> Result<Option<Row>, NoMemory>
    requires state { P.suits program.now state.now }
    requires ends { node ≡ ends → (e : Ending)
        × (ask (P.text program.now) (P.seen program.now state.now).state ≡ ended e) }
    ensures weighs { IfOk result (λ row. (q : OutcomeTest) → weight_if q row
        ≡ passing_at (of_states q (P.seen program.now state.now).state) (natural weight.now)
        node) }
    ensures ranked { IfOk result (λ row. (e : Ending) → node ≡ ends →
        ask (P.text program.now) (P.seen program.now state.now).state ≡ ended e →
        IsRankedRow (P.seen program.now state.now).state.output (end_text (finished e)) rank row) }
{
    match node {
        Node::Goes(_) => Ok(None),
        Node::Stuck(_) => Ok(None),
        Node::Ends => match asked(program, state) {
            Ask::Ended(end) => {
                let row = ended_row(alloc, program, state, end, weight, rank)?;
                Ok(Some(row))
            }
            Ask::Plain => Ok(None),
            Ask::Choice(_) => Ok(None),
        },
    }
}

/// Adds the runs that end in a state to a table, if its node has ended.
fn file_node<'c, P: States<'c>>(
    alloc: Global,
    program: &P,
    table: &mut Table,
    state: &P::State,
    node: Node,
    weight: &Natural,
    rank: Rank,
) -> Result<(), NoMemory>
    requires state { P.suits program.now state.now }
    requires ends { node ≡ ends → (e : Ending)
        × (ask (P.text program.now) (P.seen program.now state.now).state ≡ ended e) }
    ensures grow { OnOk result (RowsGrow (rows_of table.old.rows.items)
        (λ q. passing_at (of_states q (P.seen program.now state.now).state) (natural weight.now)
        node) (rows_of table.new.rows.items)) }
    ensures kept { OnOk result ((output end : List ℕ) (k : ℕ) →
        HasRank table.old.rows.items output end k → HasRank table.new.rows.items output end k) }
    ensures ranked { OnOk result ((e : Ending) → node ≡ ends →
        ask (P.text program.now) (P.seen program.now state.now).state ≡ ended e →
        HasRank table.new.rows.items (P.seen program.now state.now).state.output
        (end_text (finished e)) rank.breadth) }
{
    match row_at(alloc, program, state, node, weight, rank)? {
        Some(row) => add_row(table, row),
        None => Ok(()),
    }
}

/// Returns the rows of states and their nodes that are visited so often: each outcome once, with
/// the visits of all nodes that end with it. A row has the least rank of its nodes. The only
/// refusal is out of memory.
pub(crate) fn rows_at<'c, P: States<'c>>(
    alloc: Global,
    program: &P,
    states: &[P::State],
    nodes: &[Node],
    visits: &[Natural],
    ranks: &[Rank],
) -> Result<Vec<Row>, NoMemory>
    requires states { AllSuit (P.suits program.now) states.now }
    requires full { IsFull (P.text program.now) (states_in (P.seen program.now) states.now)
        nodes.now }
    requires visits { length visits.now ≡ length nodes.now }
    ensures rows { IfOk result (λ rows. (d : Meant) → AreRows (λ q. passing (λ i. q (state_or d
        (states_in (P.seen program.now) states.now) i)) nodes.now (naturals visits.now))
        (rows_of rows.items)) }
    ensures ranked { IfOk result (λ rows. AreRanked (P.text program.now)
        (states_in (P.seen program.now) states.now) nodes.now ranks.now rows.items) }
{
    let mut table = no_rows(alloc);
    'nodes: for at in 0..nodes.len() {
        let rank = rank_at(ranks, at);
        file_node(
            alloc,
            program,
            &mut table,
            &states[at],
            nodes[at],
            &visits[at],
            rank,
        )?;
    }
    Ok(table.rows)
}
