//! Rows of an exact answer, and how runs are added to them.

ghost use Rattle.std.specs.Prelude.{◌≡◌, ◌+◌, ◌<◌, ◌≤◌, slice_index_or, length, true, false, OnOk};
ghost use Rattle.std.specs.Prelude.{IfSome, IfNone};
ghost use Rattle.std.specs.List.{Contains};
ghost use Rattle.ick_numbers.specs.Values.{natural};
ghost use Rattle.ick_outcomes.specs.Keys.{key_of};
ghost use Rattle.ick_chain.specs.Rows.{AreApart, SameRow, row_of, rows_of};
ghost use Rattle.ick_chain.specs.Rows.{Row as Meant};

use crate::index::row_key;
use crate::ways::Rank;
use ick_bits::NoMemory;
use ick_numbers::Natural;
use smallvec::SmallVec;

/// An outcome of a program, with the weight of the runs that have it.
#[derive(Drop)]
pub struct Row {
    /// What each of the runs writes.
    pub output: Vec<u8>,
    /// How each of them ends, as a listing shows it.
    pub end: SmallVec<u8, 16>,
    /// The sum of their weights, in the parts of the answer.
    pub weight: Natural,
    /// The least rank of the nodes that end with the outcome.
    pub(crate) rank: Rank,
}

/// Returns the lesser of two numbers.
fn lesser(one: usize, other: usize) -> usize
    ensures one { result ≤ one }
    ensures other { result ≤ other }
{
    if one < other { one } else { other }
}

/// Adds the runs of a row to the row that has the same outcome.
pub(crate) fn add_weight(row: &mut Row, more: Row) -> Result<(), NoMemory>
    ensures same_output { row.new.output.items ≡ row.old.output.items }
    ensures same_end { row.new.end.items ≡ row.old.end.items }
    ensures sum { OnOk result (natural row.new.weight
        ≡ natural row.old.weight + natural more.weight) }
    ensures rank { OnOk result (row.new.rank.breadth ≤ row.old.rank.breadth) }
    ensures more { OnOk result (row.new.rank.breadth ≤ more.rank.breadth) }
{
    let rank = Rank {
        breadth: lesser(row.rank.breadth, more.rank.breadth),
        depth: lesser(row.rank.depth, more.rank.depth),
    };
    let sum = more.weight.plus(&row.weight)?;
    row.weight = sum;
    row.rank = rank;
    Ok(())
}

/// Returns whether output and end of two rows are equal.
pub(crate) fn is_row(row: &Row, more: &Row) -> bool
    ensures yes { result ≡ true → SameRow (row_of row.now) (row_of more.now) }
    ensures no { result ≡ false → AreApart (row_of row.now) (row_of more.now) }
{
    row.output == more.output && row.end.as_slice() == more.end.as_slice()
}

/// Returns the index of the row that has this outcome, by looking at each row.
pub(crate) fn find_row(rows: &[Row], more: &Row) -> Option<usize>
    ensures some { IfSome result (λ i. (d : Row) →
        SameRow (row_of (slice_index_or rows.now i d)) (row_of more.now)) }
    ensures within { IfSome result (λ i. i < length rows.now) }
    ensures no_row { IfNone result ((x : Meant) → Contains (rows_of rows.now) x →
        AreApart x (row_of more.now)) }
{
    for at in 0..rows.len() {
        if is_row(&rows[at], more) {
            return Some(at);
        }
    }
    None
}

/// Returns the key of a row.
pub(crate) fn key(row: &Row) -> u64
    ensures { result ≡ key_of row.now.output.items row.now.end.items }
{
    row_key(&row.output, &row.end)
}
