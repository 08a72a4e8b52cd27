//! Counts the runs of the rows of an answer.

ghost use Rattle.std.specs.Prelude.{◌≡◌, ℕ, None as none, Some, length, slice_get, IfOk, IfSome};
ghost use Rattle.std.specs.Prelude.{OnOk, [], ◌∷◌, ◌++◌};
ghost use Rattle.ick_code.specs.meaning.State.{State as Meant};
ghost use Rattle.ick_numbers.specs.Values.{natural, naturals};
ghost use Rattle.ick_chain.specs.Answers.{IsAnswer};
ghost use Rattle.ick_chain.specs.Chains.{passing};
ghost use Rattle.ick_chain.specs.Counts.{AllCounted, AreCounted, AreCounts, AreGraded, AreMarks};
ghost use Rattle.ick_chain.specs.Counts.{IsCounted, counts_of};
ghost use Rattle.ick_chain.specs.Places.{AllSuit, IsFull, state_or, states_in};
ghost use Rattle.ick_chain.specs.Rows.{AreRows, SameRow, row_of, rows_of};

use crate::answer::Answer;
use crate::chain::Node;
use crate::counts::{are_counts, are_graded};
use crate::errors::ChainError;
use crate::grading::{Grading, grade_all};
use crate::products::are_equal;
use crate::row::{Row, is_row};
use crate::rows::rows_at;
use ick_bits::NoMemory;
use ick_numbers::Natural;
use ick_outcomes::States;
use std::alloc::Global;

/// Returns 1 if a node has no grade, and else 0.
fn mark(alloc: Global, grade: Option<usize>) -> Result<Natural, NoMemory>
    ensures { IfOk result (λ mark. grade ≡ none → natural mark ≡ 1) }
{
    match grade {
        None => Natural::one(alloc),
        Some(_) => Ok(Natural::zero(alloc)),
    }
}

/// Returns a number for each node: 1 if the node has no grade, and else 0.
fn marks(alloc: Global, grades: &[Option<usize>]) -> Result<Vec<Natural>, NoMemory>
    ensures { IfOk result (λ marks. AreMarks grades.now (naturals marks.items)) }
{
    let mut marks = Vec::new(alloc);
    'nodes: for at in 0..grades.len() {
        let number = mark(alloc, grades[at])?;
        marks.push(number)?;
    }
    Ok(marks)
}

/// Returns the number of runs of a row, or `None` if there are nodes without grades among those
/// that end with its outcome.
fn row_count(
    alloc: Global,
    row: &Row,
    counted: &Row,
    endless: &Row,
) -> Result<Option<Natural>, ChainError>
    ensures { IfOk result (λ found. IfSome found (λ n. IsCounted (row_of row.now)
        (row_of counted.now) (row_of endless.now) (natural n))) }
{
    if !is_row(counted, row) || !is_row(endless, row) {
        return Err(ChainError::NotSolved);
    }
    if !are_equal(&endless.weight, &Natural::zero(alloc)) {
        return Ok(None);
    }
    let count = counted.weight.copy()?;
    Ok(Some(count))
}

/// Appends a count.
fn add_count(counts: &mut Vec<Option<Natural>>, count: Option<Natural>) -> Result<(), NoMemory>
    ensures { OnOk result (counts.new.items ≡ counts.old.items ++ count ∷ []) }
{
    counts.push(count)?;
    Ok(())
}

/// Returns for each row its number of runs, by the rows of counts and of marks with the same
/// outcomes.
fn count_each(
    alloc: Global,
    rows: &[Row],
    counted: &[Row],
    endless: &[Row],
) -> Result<Vec<Option<Natural>>, ChainError>
    ensures { IfOk result (λ counts. AllCounted (rows_of rows.now) (rows_of counted.now)
        (rows_of endless.now) (counts_of counts.items)) }
{
    if counted.len() != rows.len() || endless.len() != rows.len() {
        return Err(ChainError::NotSolved);
    }
    let mut counts = Vec::new(alloc);
    'rows: for at in 0..rows.len() {
        let count = row_count(alloc, &rows[at], &counted[at], &endless[at])?;
        add_count(&mut counts, count)?;
    }
    Ok(counts)
}

/// Returns the grading of nodes, if it is right.
fn graded(alloc: Global, nodes: &[Node]) -> Result<Grading, ChainError>
    ensures graded { IfOk result (λ g. AreGraded nodes.now g.grades.items) }
    ensures counts { IfOk result (λ g. AreCounts nodes.now g.grades.items
        (naturals g.counts.items)) }
{
    let grading = grade_all(alloc, nodes)?;
    if grading.grades.len() != nodes.len() || !are_graded(nodes, &grading.grades) {
        return Err(ChainError::NotSolved);
    }
    if !are_counts(alloc, nodes, &grading.grades, &grading.counts)? {
        return Err(ChainError::NotSolved);
    }
    Ok(grading)
}

/// Returns for each row of an answer the number of runs that have its outcome, or `None` if a cycle
/// is on some way to the outcome. The rows must be those that `list_outcomes` returned for the
/// answer. So many runs have the outcome under each limit, from some limit on.
///
/// `NoMemory` means that a request for memory was refused. `NotSolved` means that the rows aren't
/// those of the answer.
pub fn count_rows<'c, P: States<'c>>(
    alloc: Global,
    program: &P,
    answer: &Answer<P::State>,
    rows: &[Row],
) -> Result<Vec<Option<Natural>>, ChainError>
    requires { IsAnswer (P.text program.now) (P.seen program.now) (P.suits program.now)
        answer.now }
    ensures { IfOk result (λ counts. (s : Meant) →
        slice_get (states_in (P.seen program.now) answer.now.chain.states.items) 0 ≡ Some s →
        AreCounted (P.text program.now) s (rows_of rows.now) (counts_of counts.items)) }
{
    let states = &answer.chain.states;
    let nodes = &answer.chain.nodes;
    let grading = graded(alloc, nodes)?;
    let marks = marks(alloc, &grading.grades)?;
    let ranks = Vec::new(alloc);
    let counted = rows_at(alloc, program, states, nodes, &grading.counts, &ranks)?;
    let endless = rows_at(alloc, program, states, nodes, &marks, &ranks)?;
    count_each(alloc, rows, &counted, &endless)
}
