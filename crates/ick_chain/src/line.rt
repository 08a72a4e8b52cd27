//! Lines of a listing without a limit: outcomes with their weights and counts, in order.

ghost use Rattle.std.specs.Prelude.{◌≡◌, [], ◌∷◌, ◌++◌, option_map, OnOk, IfOk};
ghost use Rattle.ick_numbers.specs.Values.{natural};
ghost use Rattle.ick_chain.specs.Counts.{counts_of};
ghost use Rattle.ick_chain.specs.Lines.{AreMade, Sorts, lines_of, one_of};
ghost use Rattle.ick_chain.specs.Rows.{rows_of};
ghost use Rattle.ick_chain.specs.Shown.{choices_of};

use crate::errors::ChainError;
use crate::row::Row;
use ick_bits::NoMemory;
use ick_numbers::Natural;
use std::alloc::Global;

/// An outcome with its weight.
#[derive(Drop)]
pub(crate) struct Line {
    pub(crate) row: Row,
    /// The number of its runs, or `None` if they are infinitely many.
    pub(crate) count: Option<Natural>,
    /// The choices of one of its runs.
    pub(crate) shown: Vec<bool>,
}

/// Returns a copy of a count.
fn copy_count(count: &Option<Natural>) -> Result<Option<Natural>, NoMemory>
    ensures { IfOk result (λ copy. option_map natural copy ≡ option_map natural count.now) }
{
    match count {
        Some(number) => {
            let copy = number.copy()?;
            Ok(Some(copy))
        }
        None => Ok(None),
    }
}

/// Returns the line of a row. It shows the first run in the listing if the row has a count, and
/// else the run with the fewest choices.
fn make_line(
    alloc: Global,
    row: Row,
    count: &Option<Natural>,
    shown: &[bool],
    first: &[bool],
) -> Result<Line, NoMemory>
    ensures row { IfOk result (λ line. line.row ≡ row) }
    ensures count { IfOk result (λ line.
        option_map natural line.count ≡ option_map natural count.now) }
    ensures run { IfOk result (λ line. line.shown.items
        ≡ one_of (option_map natural count.now) shown.now first.now) }
{
    let choices = if count.is_some() { first } else { shown };
    let count = copy_count(count)?;
    let shown = Vec::from_slice(alloc, choices)?;
    Ok(Line { row, count, shown })
}

/// Appends a line.
fn add_line(lines: &mut Vec<Line>, line: Line) -> Result<(), NoMemory>
    ensures { OnOk result (lines.new.items ≡ lines.old.items ++ line ∷ []) }
{
    lines.push(line)?;
    Ok(())
}

/// Returns a line for each row, with its count and one of the runs that are shown for it.
pub(crate) fn make_lines(
    alloc: Global,
    rows: Vec<Row>,
    counts: &[Option<Natural>],
    shown: &[Vec<bool>],
    first: &[Vec<bool>],
) -> Result<Vec<Line>, ChainError>
    ensures { IfOk result (λ lines. AreMade (rows_of rows.items) (counts_of counts.now)
        (choices_of shown.now) (choices_of first.now) (lines_of lines.items)) }
{
    let mut lines = Vec::new(alloc);
    'rows: for row in rows {
        let at = lines.len();
        if at >= counts.len() || at >= shown.len() || at >= first.len() {
            return Err(ChainError::NotSolved);
        }
        let line = make_line(alloc, row, &counts[at], &shown[at], &first[at])?;
        add_line(&mut lines, line)?;
    }
    Ok(lines)
}

/// Sorts lines by the choices of their runs. After `NoMemory` nothing has moved.
pub(crate) fn sort_lines(lines: &mut Vec<Line>) -> Result<(), NoMemory>
    ensures { OnOk result (Sorts (lines_of lines.old.items) (lines_of lines.new.items)) }
{
    lines.sort_by(|one, other| one.shown.as_slice().cmp(other.shown.as_slice()))?;
    Ok(())
}
