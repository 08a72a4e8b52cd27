//! Writes how many outcomes and runs a program has, without a limit.

ghost use Rattle.std.specs.Prelude.{◌≡◌, ◌++◌, List, Some, slice_get, option_map, codes};
ghost use Rattle.std.specs.Prelude.{IfOk, OnOk};
ghost use Rattle.ick_code.specs.meaning.State.{State as Meant};
ghost use Rattle.ick_outcomes.specs.Programs.{Program};
ghost use Rattle.ick_numbers.specs.Values.{natural};
ghost use Rattle.ick_chain.specs.ExactListings.{IsMeanText, IsTotal, all_runs, counted};
ghost use Rattle.ick_chain.specs.ExactListings.{numbers_text as text_of_numbers};
ghost use Rattle.ick_chain.specs.Lines.{lines_of};
ghost use Rattle.ick_chain.specs.Places.{IsFull};

use crate::chain::Node;
use crate::errors::ChainError;
use crate::line::Line;
use crate::mean::mean_steps;
use crate::products::are_equal;
use crate::ratio::lowest;
use crate::visits::is_some;
use crate::weight_text::ratio_text;
use ick_bits::{NoMemory, append_decimal};
use ick_numbers::Natural;
use ick_outcomes::number_text;
use std::alloc::Global;

/// Returns the number of the runs of all lines, or `None` if they are infinitely many.
fn count_all(alloc: Global, lines: &[Line]) -> Result<Option<Natural>, NoMemory>
    ensures { IfOk result (λ sum. option_map natural sum ≡ all_runs (lines_of lines.now)) }
{
    let mut sum = Natural::zero(alloc);
    'lines: for line in lines {
        match &line.count {
            Some(count) => sum = sum.plus(count)?,
            None => return Ok(None),
        }
    }
    Ok(Some(sum))
}

/// Returns the mean number of steps in lowest terms, as text.
fn mean_text(alloc: Global, nodes: &[Node]) -> Result<Vec<u8>, ChainError>
    ensures { IfOk result (λ text. (p : Program) (states : List Meant) (s : Meant) →
        IsFull p states nodes.now → slice_get states 0 ≡ Some s → IsMeanText p s text.items) }
{
    match mean_steps(alloc, nodes)? {
        Some(mean) => {
            let ratio = lowest(alloc, &mean.steps, &mean.parts)?;
            ratio_text(alloc, &ratio)
        }
        None => Err(ChainError::NotSolved),
    }
}

/// Appends a number and a noun, which is in the plural unless the number is 1.
fn append_counted(text: &mut Vec<u8>, number: &[u8], noun: &[u8]) -> Result<(), NoMemory>
    ensures { OnOk result (text.new.items ≡ text.old.items ++ counted number.now noun.now) }
{
    text.extend_from_slice(number)?;
    text.push(b' ')?;
    text.extend_from_slice(noun)?;
    if number == b"1".as_slice() {
        return Ok(());
    }
    text.push(b'S')?;
    Ok(())
}

/// Returns a text that says so many outcomes and runs, as `1 OUTCOME, 2 RUNS`. `runs` is the text
/// of a number, or `*`. The only refusal is out of memory.
pub fn numbers_text(alloc: Global, outcomes: u64, runs: &[u8]) -> Result<Vec<u8>, NoMemory>
    ensures { IfOk result (λ text. text.items ≡ text_of_numbers outcomes runs.now) }
{
    let mut number = Vec::new(alloc);
    append_decimal(&mut number, outcomes)?;
    let mut text = Vec::new(alloc);
    append_counted(&mut text, &number, b"OUTCOME")?;
    text.extend_from_slice(b", ")?;
    append_counted(&mut text, runs, b"RUN")?;
    Ok(text)
}

/// Returns the line of so many outcomes and runs.
fn finite_text(alloc: Global, outcomes: u64, runs: &[u8]) -> Result<Vec<u8>, NoMemory>
    ensures { IfOk result (λ text. text.items
        ≡ text_of_numbers outcomes runs.now ++ codes "\n") }
{
    let mut text = numbers_text(alloc, outcomes, runs)?;
    text.push(b'\n')?;
    Ok(text)
}

/// Returns the line of so many outcomes, with infinitely many runs and a mean number of steps.
fn endless_text(alloc: Global, outcomes: u64, mean: &[u8]) -> Result<Vec<u8>, NoMemory>
    ensures { IfOk result (λ text. text.items
        ≡ text_of_numbers outcomes (codes "*") ++ codes ", " ++ mean.now ++ codes " STEPS\n") }
{
    let mut text = numbers_text(alloc, outcomes, b"*")?;
    text.extend_from_slice(b", ")?;
    text.extend_from_slice(mean)?;
    text.extend_from_slice(b" STEPS\n")?;
    Ok(text)
}

/// Returns the line of how many outcomes and runs there are. The runs are `*` if they are
/// infinitely many or if runs that never end weigh anything. If none of these does, a mean number
/// of steps stands behind `*`.
pub(crate) fn total_text(
    alloc: Global,
    nodes: &[Node],
    lines: &[Line],
    never: &Natural,
) -> Result<Vec<u8>, ChainError>
    ensures { IfOk result (λ text. (p : Program) (states : List Meant) (s : Meant) →
        IsFull p states nodes.now → slice_get states 0 ≡ Some s →
        IsTotal p s (natural never.now) (lines_of lines.now) text.items) }
{
    let outcomes = lines.len() as u64;
    if is_some(never) {
        let text = finite_text(alloc, outcomes, b"*")?;
        return Ok(text);
    }
    if !are_equal(never, &Natural::zero(alloc)) {
        return Err(ChainError::NotSolved);
    }
    match count_all(alloc, lines)? {
        Some(count) => {
            let runs = number_text(&count, alloc)?;
            let text = finite_text(alloc, outcomes, &runs)?;
            Ok(text)
        }
        None => {
            let mean = mean_text(alloc, nodes)?;
            let text = endless_text(alloc, outcomes, &mean)?;
            Ok(text)
        }
    }
}
