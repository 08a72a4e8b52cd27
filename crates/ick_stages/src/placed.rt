//! Where a statement and its parts are.

ghost use Rattle.std.specs.Prelude.{◌≡◌, ◌≤◌, IfOk, MatchOption, false, length};
ghost use Rattle.ick_places.specs.Statements.{is_recognised};
ghost use Rattle.ick_stages.specs.Placed.{AreParts, IsPlacedAt, IsStopAt};
ghost use Rattle.ick_stages.specs.Starts.{IsPoint};
ghost use Rattle.ick_syntax.specs.BodyTree.{body_tree_of};
ghost use Rattle.ick_syntax.specs.StatementTree.{statement_tree_of};

use crate::point::Point;
use ick_bits::NoMemory;
use ick_inspect::LineColumn;
use ick_places::{Places, place_statement};
use ick_source::{Stop, stop_of};
use ick_syntax::{Body, Statement};
use std::alloc::Global;

/// The places of a statement's parts, and where reading stops if the statement is unrecognised.
#[derive(Drop)]
pub struct Parts {
    pub places: Places,
    pub stop: Option<Stop>,
}

/// The line and the column of a statement, and the places of its parts if they are asked for.
#[derive(Drop)]
pub struct Placed {
    pub position: LineColumn,
    pub parts: Option<Parts>,
}

/// Finds where the reading of a statement stops that begins at byte `at`, if it is unrecognised.
fn stop_at(
    alloc: Global,
    source: &[u8],
    at: usize,
    statement: &Statement<'_>,
) -> Result<Option<Stop>, NoMemory>
    ensures { IfOk result (IsStopAt source.now at
        (is_recognised (body_tree_of statement.now.body))) }
{
    match statement.body {
        Body::Unrecognised => stop_of(alloc, source, at),
        _ => Ok(None),
    }
}

/// Finds the parts of a statement that begins at byte `at`.
fn parts_at(
    alloc: Global,
    source: &[u8],
    at: usize,
    statement: &Statement<'_>,
) -> Result<Parts, NoMemory>
    requires { at ≤ length source.now }
    ensures { IfOk result (AreParts source.now at (statement_tree_of statement.now)) }
{
    let places = place_statement(alloc, source, at, statement)?;
    let stop = stop_at(alloc, source, at, statement)?;
    Ok(Parts { places, stop })
}

/// Finds the parts of a statement that begins at byte `at`, if they are asked for.
fn parts_if(
    alloc: Global,
    source: &[u8],
    at: usize,
    statement: &Statement<'_>,
    asked: bool,
) -> Result<Option<Parts>, NoMemory>
    requires { at ≤ length source.now }
    ensures { IfOk result (λ parts. MatchOption parts (asked ≡ false)
        (AreParts source.now at (statement_tree_of statement.now))) }
{
    if !asked {
        return Ok(None);
    }
    match parts_at(alloc, source, at, statement) {
        Ok(parts) => Ok(Some(parts)),
        Err(refused) => Err(refused),
    }
}

/// Returns where a statement is that begins at a byte, and where its parts are, if they are asked
/// for.
pub fn placed_at(
    alloc: Global,
    source: &[u8],
    start: Point,
    statement: &Statement<'_>,
    asked: bool,
) -> Result<Placed, NoMemory>
    requires { IsPoint source.now start }
    ensures { IfOk result (IsPlacedAt source.now start.at asked
        (statement_tree_of statement.now)) }
{
    let parts = parts_if(alloc, source, start.at, statement, asked)?;
    Ok(Placed {
        position: start.position,
        parts,
    })
}
