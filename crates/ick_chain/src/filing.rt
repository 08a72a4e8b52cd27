//! Adds rows to a table.

ghost use Rattle.std.specs.Prelude.{◌≡◌, ◌<◌, ℕ, List, [], slice_index_or, length, OnOk, IfSome};
ghost use Rattle.std.specs.Prelude.{IfNone};
ghost use Rattle.std.specs.List.{Contains};
ghost use Rattle.ick_outcomes.specs.Keys.{key_of};
ghost use Rattle.ick_chain.specs.Ranks.{HasRank};
ghost use Rattle.ick_chain.specs.RowKeys.{IsIndexed};
ghost use Rattle.ick_chain.specs.Rows.{AreApart, Adds, SameRow, row_of, rows_of};
ghost use Rattle.ick_chain.specs.Rows.{Row as Meant};

use crate::index::Index;
use crate::row::{Row, add_weight, find_row, is_row, key};
use ick_bits::NoMemory;
use std::alloc::Global;

/// Rows, and an index that has the key of each of them.
#[derive(Drop)]
pub(crate) struct Table {
    pub(crate) rows: Vec<Row>,
    pub(crate) index: Index,
    pub(crate) ghost indexed: { IsIndexed index.rows rows.items },
}

/// Returns a table without rows.
#[tactic(auto, using(crate::proofs::RowTables::indexed_none))]
pub(crate) fn no_rows(alloc: Global) -> Table
    ensures { result.rows.items ≡ [] }
{
    Table {
        rows: Vec::new(alloc),
        index: Index::new(alloc),
    }
}

/// Returns the index of the row that has this outcome, or `None` if there is none.
#[tactic(auto, using(crate::proofs::RowTables::apart_by_key))]
fn find_outcome(table: &Table, key: u64, more: &Row) -> Option<usize>
    requires { key ≡ key_of more.now.output.items more.now.end.items }
    ensures some { IfSome result (λ i. (d : Row) →
        SameRow (row_of (slice_index_or table.now.rows.items i d)) (row_of more.now)) }
    ensures within { IfSome result (λ i. i < length table.now.rows.items) }
    ensures no_row { IfNone result ((x : Meant) → Contains (rows_of table.now.rows.items) x →
        AreApart x (row_of more.now)) }
{
    match table.index.find(key) {
        Some(at) => {
            if at < table.rows.len() && is_row(&table.rows[at], more) {
                return Some(at);
            }
            find_row(&table.rows, more)
        }
        None => None,
    }
}

/// Adds the runs of a row to the row with the same outcome, or appends it.
#[tactic(auto, using(crate::proofs::Ranking::filing))]
pub(crate) fn add_row(table: &mut Table, more: Row) -> Result<(), NoMemory>
    ensures adds { OnOk result (Adds (rows_of table.old.rows.items) (row_of more)
        (rows_of table.new.rows.items)) }
    ensures kept { OnOk result ((output end : List ℕ) (rank : ℕ) →
        HasRank table.old.rows.items output end rank →
        HasRank table.new.rows.items output end rank) }
    ensures ranked { OnOk result (HasRank table.new.rows.items more.output.items more.end.items
        more.rank.breadth) }
{
    let key = key(&more);
    match find_outcome(table, key, &more) {
        Some(at) => {
            add_weight(&mut table.rows[at], more)?;
            Ok(())
        }
        None => {
            let at = table.rows.len();
            table.index.note(key, at)?;
            table.rows.push(more)?;
            Ok(())
        }
    }
}
