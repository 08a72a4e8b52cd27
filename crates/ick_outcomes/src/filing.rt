//! Adds outcomes to a table.

ghost use Rattle.std.specs.Prelude.{◌≡◌, ◌<◌, [], slice_index_or, length, OnOk, IfSome, IfNone};
ghost use Rattle.std.specs.List.{Contains};
ghost use Rattle.ick_outcomes.specs.Accounts.{AreApart, Counts, SameRow};
ghost use Rattle.ick_outcomes.specs.Keys.{key_of};
ghost use Rattle.ick_outcomes.specs.Seen.{row_of, rows_of};
ghost use Rattle.ick_outcomes.specs.Summaries.{Row};

use crate::index::Index;
use crate::outcome::{Outcome, add_runs, find_row, is_row, outcome_key};
use crate::table::Table;
use ick_bits::NoMemory;
use std::alloc::Global;

/// Returns a table without rows.
#[tactic(auto, using(crate::proofs::KeyLaws::indexed_none))]
pub(crate) fn no_rows(alloc: Global) -> Table
    ensures { result.rows.items ≡ [] }
{
    Table {
        rows: Vec::new(alloc),
        index: Index::new(alloc),
    }
}

/// Returns the index of the row that has this outcome, or `None` if there is none.
#[tactic(auto, using(crate::proofs::KeyLaws::apart_by_key))]
fn find_outcome(table: &Table, key: u64, more: &Outcome) -> Option<usize>
    requires { key ≡ key_of more.now.output.items more.now.end.items }
    ensures some { IfSome result (λ i. (d : Outcome) →
        SameRow (row_of (slice_index_or table.now.rows.items i d)) (row_of more.now)) }
    ensures within { IfSome result (λ i. i < length table.now.rows.items) }
    ensures no_row { IfNone result ((x : Row) → Contains (rows_of table.now.rows.items) x →
        AreApart x (row_of more.now)) }
{
    match table.index.find(key) {
        Some(at) => {
            if at < table.rows.len() && is_row(&table.rows[at], more) {
                return Some(at);
            }
            find_row(&table.rows, more)
        }
        None => None,
    }
}

/// Adds the runs of an outcome to its row, or appends a row for them.
#[tactic(auto, using(crate::proofs::Uses::counts_row, crate::proofs::KeyLaws::indexed))]
pub(crate) fn add_outcome(alloc: Global, table: &mut Table, more: Outcome) -> Result<(), NoMemory>
    ensures { OnOk result (Counts (rows_of table.old.rows.items) (row_of more)
        (rows_of table.new.rows.items)) }
{
    let key = outcome_key(&more);
    match find_outcome(table, key, &more) {
        Some(at) => {
            add_runs(alloc, &mut table.rows[at], more)?;
            Ok(())
        }
        None => {
            let at = table.rows.len();
            table.index.note(key, at)?;
            table.rows.push(more)?;
            Ok(())
        }
    }
}
