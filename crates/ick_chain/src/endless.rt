//! Shows that rows without a count have infinitely many runs.

ghost use Rattle.std.specs.Prelude.{◌≡◌, true, None as none, Some, slice_get, IfOk, OnOk};
ghost use Rattle.ick_code.specs.meaning.State.{State as Meant};
ghost use Rattle.ick_chain.specs.Answers.{IsAnswer};
ghost use Rattle.ick_chain.specs.Counts.{counts_of};
ghost use Rattle.ick_chain.specs.ExactListings.{HasEndlessRuns};
ghost use Rattle.ick_chain.specs.Lines.{AreEndless, GoesRound};
ghost use Rattle.ick_chain.specs.Places.{AllSuit, IsFull, states_in};
ghost use Rattle.ick_chain.specs.Rows.{row_of, rows_of};

use crate::answer::Answer;
use crate::chain::Node;
use crate::errors::ChainError;
use crate::grading::grade_all;
use crate::rounds::{Round, Rounds, find_rounds};
use crate::row::Row;
use crate::rows::rows_at;
use crate::search::asked;
use crate::showing::is_outcome;
use crate::walking::{leads, leads_from};
use crate::ways::Rank;
use ick_backtrack::Ask;
use ick_bits::NoMemory;
use ick_numbers::Natural;
use ick_outcomes::States;
use std::alloc::Global;

/// Returns true only if a way leads to a round, around it by some choice, and on to a node.
fn goes_round(nodes: &[Node], round: &Round, end: usize) -> bool
    ensures { result ≡ true → GoesRound nodes.now round.now.at round.now.before.items
        round.now.around.items round.now.behind.items end }
{
    if round.around.is_empty() || !leads(nodes, &round.before, round.at) {
        return false;
    }
    if !leads_from(nodes, round.at, &round.around, round.at) {
        return false;
    }
    leads_from(nodes, round.at, &round.behind, end)
}

/// Returns true only if runs that go round so often as they may end at a node with the outcome of a
/// row.
fn repeats<'c, P: States<'c>>(
    alloc: Global,
    program: &P,
    states: &[P::State],
    nodes: &[Node],
    round: &Round,
    end: usize,
    row: &Row,
) -> Result<bool, NoMemory>
    requires states { AllSuit (P.suits program.now) states.now }
    requires full { IsFull (P.text program.now) (states_in (P.seen program.now) states.now)
        nodes.now }
    ensures { IfOk result (λ yes. yes ≡ true → (s : Meant) →
        slice_get (states_in (P.seen program.now) states.now) 0 ≡ Some s →
        HasEndlessRuns (P.text program.now) s (row_of row.now)) }
{
    if end >= states.len() || !goes_round(nodes, round, end) {
        return Ok(false);
    }
    match asked(program, &states[end]) {
        Ask::Ended(word) => is_outcome(alloc, program, &states[end], word, row),
        Ask::Plain => Ok(false),
        Ask::Choice(_) => Ok(false),
    }
}

/// Returns for each node its number as its rank, if it has no grade, and else the greatest rank.
fn ranks(alloc: Global, grades: &[Option<usize>]) -> Result<Vec<Rank>, NoMemory> {
    let mut ranks = Vec::new(alloc);
    'nodes: for at in 0..grades.len() {
        let number = if grades[at].is_none() { at } else { usize::MAX };
        ranks.push(Rank {
            breadth: number,
            depth: number,
        })?;
    }
    Ok(ranks)
}

/// Returns for each row the number of a node without a grade that ends with its outcome.
fn ends<'c, P: States<'c>>(
    alloc: Global,
    program: &P,
    answer: &Answer<P::State>,
    grades: &[Option<usize>],
) -> Result<Vec<usize>, NoMemory>
    requires { IsAnswer (P.text program.now) (P.seen program.now) (P.suits program.now)
        answer.now }
{
    let ranks = ranks(alloc, grades)?;
    let chain = &answer.chain;
    let rows = rows_at(
        alloc,
        program,
        &chain.states,
        &chain.nodes,
        &answer.visits,
        &ranks,
    )?;
    let mut ends = Vec::new(alloc);
    'rows: for at in 0..rows.len() {
        ends.push(rows[at].rank.breadth)?;
    }
    Ok(ends)
}

/// Returns whether some row has no count.
fn lacks_count(counts: &[Option<Natural>]) -> bool {
    'counts: for at in 0..counts.len() {
        if counts[at].is_none() {
            return true;
        }
    }
    false
}

/// What shows that rows have infinitely many runs: rounds of nodes, and for each row a node that
/// ends with its outcome. There are no such nodes if each row has a count.
#[derive(Drop)]
struct Shows {
    rounds: Rounds,
    ends: Vec<usize>,
}

/// Finds what shows that rows have infinitely many runs.
fn find_shows<'c, P: States<'c>>(
    alloc: Global,
    program: &P,
    answer: &Answer<P::State>,
    counts: &[Option<Natural>],
) -> Result<Shows, NoMemory>
    requires { IsAnswer (P.text program.now) (P.seen program.now) (P.suits program.now)
        answer.now }
{
    if !lacks_count(counts) {
        return Ok(Shows {
            rounds: find_rounds(alloc, &[], &[])?,
            ends: Vec::new(alloc),
        });
    }
    let nodes = &answer.chain.nodes;
    let grading = grade_all(alloc, nodes)?;
    Ok(Shows {
        rounds: find_rounds(alloc, nodes, &grading.grades)?,
        ends: ends(alloc, program, answer, &grading.grades)?,
    })
}

/// Shows that a row has infinitely many runs, if it has no count.
fn show_row<'c, P: States<'c>>(
    alloc: Global,
    program: &P,
    answer: &Answer<P::State>,
    shows: &Shows,
    at: usize,
    row: &Row,
    count: &Option<Natural>,
) -> Result<(), ChainError>
    requires { IsAnswer (P.text program.now) (P.seen program.now) (P.suits program.now)
        answer.now }
    ensures { OnOk result ((s : Meant) →
        slice_get (states_in (P.seen program.now) answer.now.chain.states.items) 0 ≡ Some s →
        count.now ≡ none → HasEndlessRuns (P.text program.now) s (row_of row.now)) }
{
    if count.is_some() {
        return Ok(());
    }
    if at >= shows.ends.len() {
        return Err(ChainError::NotSolved);
    }
    let states = &answer.chain.states;
    let nodes = &answer.chain.nodes;
    let end = shows.ends[at];
    let round = shows.rounds.round(alloc, nodes, end)?;
    if repeats(alloc, program, states, nodes, &round, end, row)? {
        return Ok(());
    }
    Err(ChainError::NotSolved)
}

/// Shows that each row of an answer without a count has infinitely many runs. The rows and counts
/// must be those that `list_outcomes` and `count_rows` returned. `NotSolved` means that they
/// aren't.
pub(crate) fn show_endless<'c, P: States<'c>>(
    alloc: Global,
    program: &P,
    answer: &Answer<P::State>,
    rows: &[Row],
    counts: &[Option<Natural>],
) -> Result<(), ChainError>
    requires { IsAnswer (P.text program.now) (P.seen program.now) (P.suits program.now)
        answer.now }
    ensures { OnOk result ((s : Meant) →
        slice_get (states_in (P.seen program.now) answer.now.chain.states.items) 0 ≡ Some s →
        AreEndless (P.text program.now) s (rows_of rows.now) (counts_of counts.now)) }
{
    if counts.len() != rows.len() {
        return Err(ChainError::NotSolved);
    }
    let shows = find_shows(alloc, program, answer, counts)?;
    'rows: for at in 0..rows.len() {
        show_row(alloc, program, answer, &shows, at, &rows[at], &counts[at])?;
    }
    Ok(())
}
