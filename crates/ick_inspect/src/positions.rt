//! Lines and columns of statements in a source.

ghost use Rattle.std.specs.Prelude.{◌≡◌, ◌<◌, ◌≤◌, ◌^◌, ℕ, List, length, map, true, false};
ghost use Rattle.std.specs.Prelude.{slice_index};
ghost use Rattle.std.specs.Prelude.{IfOk, IsTrue};
ghost use Rattle.ick_bits.specs.White.{is_white_byte};
ghost use Rattle.ick_code.specs.Compiled.{code_program};
ghost use Rattle.ick_inspect.specs.Positions.{AreAt, position_behind, position_in, texts_of};

use ick_bits::{NoMemory, is_white};
use ick_code::Code;
use std::alloc::Global;

/// A line and a column of a source, each counted from 1. A column counts bytes.
#[derive(Clone, Copy, Debug)]
pub struct LineColumn {
    pub line: usize,
    pub column: usize,
}

/// Returns the position behind a byte.
#[tactic(auto, unfolding(crate::specs::Positions::position_behind))]
fn behind(position: LineColumn, byte: u8) -> LineColumn
    requires line { position.line < 2 ^ 63 }
    requires column { position.column < 2 ^ 63 }
    ensures { result ≡ position_behind position byte }
{
    if byte == b'\n' {
        return LineColumn {
            line: position.line + 1,
            column: 1,
        };
    }
    LineColumn {
        line: position.line,
        column: position.column + 1,
    }
}

/// Returns the position of the byte at `to`, from that of an earlier byte.
pub fn moved(source: &[u8], from: usize, to: usize, position: LineColumn) -> LineColumn
    requires order { from ≤ to }
    requires within { to ≤ length source.now }
    requires position { position ≡ position_in source.now from }
    ensures { result ≡ position_in source.now to }
{
    let mut position = position;
    for at in from..to {
        position = behind(position, source[at]);
    }
    position
}

/// Returns where the white bytes from a position on end.
fn after_white(source: &[u8], from: usize) -> usize
    requires { from ≤ length source.now }
    ensures order { from ≤ result }
    ensures within { result ≤ length source.now }
    ensures white { (k : ℕ) → from ≤ k → k < result →
        IsTrue (is_white_byte (slice_index source.now k)) }
    ensures solid { result < length source.now →
        is_white_byte (slice_index source.now result) ≡ false }
{
    let mut at = from;
    while at < source.len() && is_white(source[at]) {
        at += 1;
    }
    at
}

/// Returns the position of each statement in the source that the program was read from: the line
/// and the column at which its text begins. Only white bytes are before, between and behind the
/// texts of statements, so there is one such position for each.
///
/// Refuses with `NoMemory` if memory runs out. Over another source the positions have no meaning.
pub fn positions_of(
    alloc: Global,
    source: &[u8],
    code: &Code<'_>,
) -> Result<Vec<LineColumn>, NoMemory>
    ensures count { IfOk result (λ found. length found.items ≡ length (code_program code.now)) }
    ensures at { IfOk result (λ found. (starts : List ℕ) →
        AreAt source.now 0 (texts_of (code_program code.now)) starts →
        found.items ≡ map (position_in source.now) starts) }
{
    let mut found = Vec::with_capacity(alloc, code.count() as usize)?;
    let mut at = 0;
    let mut position = LineColumn { line: 1, column: 1 };
    for index in 0..code.count() {
        let start = after_white(source, at);
        position = moved(source, at, start, position);
        found.push(position)?;
        let end = start + code.text(index + 1).len().min(source.len() - start);
        position = moved(source, start, end, position);
        at = end;
    }
    Ok(found)
}
