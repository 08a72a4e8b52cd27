//! Counts the bytes that a search and its solver keep.

ghost use Rattle.std.specs.Prelude.{◌≡◌, ◌≤◌, length, IfOk};
ghost use Rattle.ick_chain.specs.Kept.{HasEntries, HasSources};
ghost use Rattle.ick_chain.specs.Reached.{bytes_of};

use crate::search::NODE_BYTES;
use ick_bits::NoMemory;
use ick_outcomes::States;
use std::alloc::Global;

/// Returns how many bytes states and what is kept for them take. The greatest number stands for
/// each that is greater.
#[tactic(auto, using(crate::proofs::KeptLaws::bytes_next, crate::proofs::KeptLaws::bytes_all))]
pub(crate) fn states_bytes<'c, P: States<'c>>(program: &P, states: &[P::State]) -> u64
    ensures { result ≤ bytes_of (P.size program.now) states.now }
{
    let mut sum: u64 = 0;
    'states: for at in 0..states.len() {
        let bytes = program.bytes(&states[at]).saturating_add(NODE_BYTES);
        sum = sum.saturating_add(bytes);
    }
    sum
}

/// Counts the different nodes of a row. A node has the mark `stamp` once it is counted.
#[tactic(auto, using(crate::proofs::KeptLaws::marking))]
fn count_row(row: &[usize], marks: &mut Vec<usize>, stamp: usize) -> u64
    ensures counted { HasSources (length marks.old.items) result }
    ensures same { length marks.new.items ≡ length marks.old.items }
{
    let mut count: u64 = 0;
    'row: for at in 0..row.len() {
        let node = row[at];
        if node < marks.len() && marks[node] != stamp {
            marks[node] = stamp;
            count = count.saturating_add(1);
        }
    }
    count
}

/// Counts the different nodes of the row with an index, if there is one.
#[tactic(auto, using(crate::proofs::KeptLaws::none_sources))]
fn count_at(rows: &[Vec<usize>], marks: &mut Vec<usize>, at: usize) -> u64
    ensures counted { HasSources (length marks.old.items) result }
    ensures same { length marks.new.items ≡ length marks.old.items }
{
    if at < rows.len() {
        return count_row(&rows[at], marks, at);
    }
    0
}

/// Returns a mark for each node that is no index of a row.
#[tactic(auto, using(crate::proofs::KeptLaws::long_next))]
fn no_marks(alloc: Global, count: usize) -> Result<Vec<usize>, NoMemory>
    ensures { IfOk result (λ marks. length marks.items ≡ count) }
{
    let mut marks = Vec::new(alloc);
    'nodes: for at in 0..count {
        marks.push(count)?;
    }
    Ok(marks)
}

/// Counts the different nodes of each row. There is at most one row for each of `count` nodes.
#[tactic(auto, using(crate::proofs::KeptLaws::below))]
pub(crate) fn count_entries(
    alloc: Global,
    rows: &[Vec<usize>],
    count: usize,
) -> Result<u64, NoMemory>
    ensures { IfOk result (λ entries. HasEntries count entries) }
{
    let mut marks = no_marks(alloc, count)?;
    let mut entries: u64 = 0;
    'rows: for at in 0..count {
        let more = count_at(rows, &mut marks, at);
        entries = entries.saturating_add(more);
    }
    Ok(entries)
}
