//! The lines of a source by its statements, whether it is refused or not, written one by one.

ghost use Rattle.std.specs.Prelude.{ℕ, List, [], ◌∷◌, ◌++◌, ◌≡◌, ◌+◌, ◌<◌, ◌^◌, OnOk};
ghost use Rattle.std.specs.Prelude.{length, true};
ghost use Rattle.ick_explorer.specs.Writes.{write_failures};
ghost use Rattle.ick_inspect.specs.Text.{Adds};
ghost use Rattle.ick_stages.specs.Faults.{last_line};
ghost use Rattle.ick_stages.specs.Lines.{WritesLines, WritesPiece};
ghost use Rattle.ick_stages.specs.Listed.{AllStart, AreAllFaults, AreFaults, AreSeen, AreSome};
ghost use Rattle.ick_stages.specs.Listed.{AreSomeFaults, AreSomeSeen, HasFault, HasListed, HasSeen};
ghost use Rattle.ick_stages.specs.Listed.{AreSomeEnd, IsEnd, seen_text, seen_tree};
ghost use Rattle.ick_stages.specs.Placed.{IsPlacedAt};
ghost use Rattle.ick_stages.specs.Stages.{tree_line};
ghost use Rattle.ick_stages.specs.Starts.{IsPoint};
ghost use Rattle.ick_stages.specs.Steps.{asked_text};
ghost use Rattle.ick_stages.specs.declared.placed.Placed.{Placed};
ghost use Rattle.ick_syntax.specs.StatementTree.{statement_tree_of};

use crate::fault::{append_fault, append_last};
use crate::placed::placed_at;
use crate::point::Point;
use crate::stages::{Asked, append_parts_of, append_tree_line, is_shown};
use crate::statement::append_line;
use crate::writing::write_text;
use ick_bits::NoMemory;
use ick_devices::ByteSink;
use ick_explorer::RunsError;
use ick_inspect::Text;
use ick_places::place_statement;
use ick_source::{Body, FaultAt, Seen};
use std::alloc::Global;

/// Appends the tree of a statement, if it is asked for. A statement with a number out of range has
/// none.
fn append_seen_tree(text: &mut Text, one: &Seen<'_>, asked: bool)
    ensures { Adds text.old text.new (asked_text asked (tree_line (seen_tree one.now))) }
{
    if one.faults.mesh || one.faults.name || one.faults.label {
        append_tree_line(text, &Body::Unrecognised, asked);
    } else {
        append_tree_line(text, &one.statement.body, asked);
    }
}

/// Appends the lines of a statement that begins at a byte.
#[tactic(auto, unfolding(crate::specs::Listed::seen_text))]
fn append_seen(
    alloc: Global,
    text: &mut Text,
    source: &[u8],
    start: Point,
    one: &Seen<'_>,
    asked: &Asked,
) -> Result<(), NoMemory>
    requires { IsPoint source.now start }
    ensures { OnOk result ((placed : Placed)
        × IsPlacedAt source.now start.at asked.now.parts (statement_tree_of one.now.statement)
        placed
        × Adds text.old text.new (seen_text asked.now one.now placed)) }
{
    let placed = placed_at(alloc, source, start, &one.statement, asked.parts)?;
    append_line(text, one.statement.number, &one.statement, placed.position);
    append_seen_tree(text, one, asked.tree);
    append_parts_of(text, &placed.parts, asked.places);
    Ok(())
}

/// Appends the lines of a statement that begins at a byte, if it is shown.
fn append_seen_if(
    alloc: Global,
    text: &mut Text,
    source: &[u8],
    start: Point,
    one: &Seen<'_>,
    asked: &Asked,
) -> Result<(), NoMemory>
    requires { IsPoint source.now start }
    ensures { OnOk result ((piece : List ℕ) × HasSeen source.now start.at asked.now one.now piece
        × Adds text.old text.new piece) }
{
    if !is_shown(asked.only, one.statement.number) {
        return Ok(());
    }
    append_seen(alloc, text, source, start, one, asked)
}

/// Notes where a statement begins, and appends its lines, if it is shown.
fn append_next(
    alloc: Global,
    text: &mut Text,
    starts: &mut Vec<usize>,
    source: &[u8],
    start: Point,
    one: &Seen<'_>,
    asked: &Asked,
) -> Result<(), NoMemory>
    requires { IsPoint source.now start }
    ensures starts { OnOk result (starts.new.items ≡ starts.old.items ++ start.at ∷ []) }
    ensures piece { OnOk result ((piece : List ℕ)
        × HasSeen source.now start.at asked.now one.now piece × Adds text.old text.new piece) }
{
    starts.push(start.at)?;
    append_seen_if(alloc, text, source, start, one, asked)
}

/// Notes where a statement begins, and writes its lines, if it is shown, all at once.
fn write_seen<W: ByteSink>(
    alloc: Global,
    writer: &mut W,
    text: &mut Text,
    starts: &mut Vec<usize>,
    source: &[u8],
    start: Point,
    one: &Seen<'_>,
    asked: &Asked,
) -> Result<(), RunsError>
    requires point { IsPoint source.now start }
    requires room { W.failed writer.old + 1 < 2 ^ 64 }
    ensures count { W.failed writer.new ≡ W.failed writer.old + write_failures result }
    ensures starts { OnOk result (starts.new.items ≡ starts.old.items ++ start.at ∷ []) }
    ensures written { W.told ≡ true → WritesPiece (HasSeen source.now start.at asked.now one.now)
        (W.written writer.old) (W.written writer.new) result }
{
    text.clear();
    match append_next(alloc, text, starts, source, start, one, asked) {
        Ok(()) => write_text(writer, &*text),
        Err(NoMemory) => Err(RunsError::NoMemory),
    }
}

/// Writes the lines of the statements of a source, and notes where they begin.
fn write_statements<W: ByteSink>(
    alloc: Global,
    writer: &mut W,
    starts: &mut Vec<usize>,
    source: &[u8],
    seen: &[Seen<'_>],
    asked: &Asked,
) -> Result<(), RunsError>
    requires empty { starts.old.items ≡ [] }
    requires room { W.failed writer.old + 1 < 2 ^ 64 }
    ensures count { W.failed writer.new ≡ W.failed writer.old + write_failures result }
    ensures starts { OnOk result (AllStart source.now seen.now starts.new.items) }
    ensures written { W.told ≡ true → WritesLines
        (AreSeen source.now asked.now seen.now (length seen.now))
        (AreSomeSeen source.now asked.now seen.now)
        (W.written writer.old) (W.written writer.new) result }
{
    let mut text = Text::new(alloc);
    let mut point = Point::first();
    for one in seen {
        let start = point.past_white(source);
        match write_seen(alloc, writer, &mut text, starts, source, start, one, asked) {
            Ok(()) => {}
            Err(refused) => return Err(refused),
        }
        point = start.past_text(source, one.statement.text);
    }
    Ok(())
}

/// Appends the line of a fault, if its statement is there.
fn append_fault_at(
    alloc: Global,
    text: &mut Text,
    source: &[u8],
    starts: &[usize],
    seen: &[Seen<'_>],
    fault: FaultAt,
) -> Result<(), NoMemory>
    requires { AllStart source.now seen.now starts.now }
    ensures { OnOk result ((piece : List ℕ) × HasFault source.now seen.now fault piece
        × Adds text.old text.new piece) }
{
    let index = fault.number.saturating_sub(1) as usize;
    if index >= seen.len() {
        return Ok(());
    }
    let places = place_statement(alloc, source, starts[index], &seen[index].statement)?;
    append_fault(text, source, fault, &places);
    Ok(())
}

/// Writes the line of a fault.
fn write_fault<W: ByteSink>(
    alloc: Global,
    writer: &mut W,
    text: &mut Text,
    source: &[u8],
    starts: &[usize],
    seen: &[Seen<'_>],
    fault: FaultAt,
) -> Result<(), RunsError>
    requires starts { AllStart source.now seen.now starts.now }
    requires room { W.failed writer.old + 1 < 2 ^ 64 }
    ensures count { W.failed writer.new ≡ W.failed writer.old + write_failures result }
    ensures written { W.told ≡ true → WritesPiece (HasFault source.now seen.now fault)
        (W.written writer.old) (W.written writer.new) result }
{
    text.clear();
    match append_fault_at(alloc, text, source, starts, seen, fault) {
        Ok(()) => write_text(writer, &*text),
        Err(NoMemory) => Err(RunsError::NoMemory),
    }
}

/// Writes the lines of the faults of a source.
fn write_faults<W: ByteSink>(
    alloc: Global,
    writer: &mut W,
    source: &[u8],
    starts: &[usize],
    seen: &[Seen<'_>],
    faults: &[FaultAt],
) -> Result<(), RunsError>
    requires starts { AllStart source.now seen.now starts.now }
    requires room { W.failed writer.old + 1 < 2 ^ 64 }
    ensures count { W.failed writer.new ≡ W.failed writer.old + write_failures result }
    ensures written { W.told ≡ true → WritesLines
        (AreFaults source.now seen.now faults.now (length faults.now))
        (AreSomeFaults source.now seen.now faults.now)
        (W.written writer.old) (W.written writer.new) result }
{
    let mut text = Text::new(alloc);
    for fault in faults {
        match write_fault(alloc, writer, &mut text, source, starts, seen, *fault) {
            Ok(()) => {}
            Err(refused) => return Err(refused),
        }
    }
    Ok(())
}

/// Writes the lines of the faults of a source, if they are asked for.
fn write_faults_if<W: ByteSink>(
    alloc: Global,
    writer: &mut W,
    source: &[u8],
    starts: &[usize],
    seen: &[Seen<'_>],
    faults: &[FaultAt],
    asked: bool,
) -> Result<(), RunsError>
    requires starts { AllStart source.now seen.now starts.now }
    requires room { W.failed writer.old + 1 < 2 ^ 64 }
    ensures count { W.failed writer.new ≡ W.failed writer.old + write_failures result }
    ensures written { W.told ≡ true → WritesLines
        (AreAllFaults source.now seen.now faults.now asked)
        (AreSomeFaults source.now seen.now faults.now)
        (W.written writer.old) (W.written writer.new) result }
{
    if !asked {
        return Ok(());
    }
    write_faults(alloc, writer, source, starts, seen, faults)
}

/// Writes the last line of a source by its faults.
fn write_last<W: ByteSink>(
    alloc: Global,
    writer: &mut W,
    faults: &[FaultAt],
) -> Result<(), RunsError>
    requires { W.failed writer.old + 1 < 2 ^ 64 }
    ensures count { W.failed writer.new ≡ W.failed writer.old + write_failures result }
    ensures written { W.told ≡ true → WritesPiece (λ piece. piece ≡ last_line faults.now)
        (W.written writer.old) (W.written writer.new) result }
{
    let mut text = Text::new(alloc);
    append_last(&mut text, faults);
    write_text(writer, &text)
}

/// Writes the lines of the faults of a source, if they are asked for, and the last line.
fn write_end<W: ByteSink>(
    alloc: Global,
    writer: &mut W,
    source: &[u8],
    starts: &[usize],
    seen: &[Seen<'_>],
    faults: &[FaultAt],
    asked: bool,
) -> Result<(), RunsError>
    requires starts { AllStart source.now seen.now starts.now }
    requires room { W.failed writer.old + 1 < 2 ^ 64 }
    ensures count { W.failed writer.new ≡ W.failed writer.old + write_failures result }
    ensures written { W.told ≡ true → WritesLines
        (IsEnd source.now seen.now faults.now asked)
        (AreSomeEnd source.now seen.now faults.now asked)
        (W.written writer.old) (W.written writer.new) result }
{
    match write_faults_if(alloc, writer, source, starts, seen, faults, asked) {
        Ok(()) => write_last(alloc, writer, faults),
        Err(refused) => Err(refused),
    }
}

/// Writes the lines of the statements of a source that are asked for, then those of its faults, if
/// all places are asked for, and last `DONE`, or `REFUSED 129 3` with the first fault.
pub fn write_listed<W: ByteSink>(
    alloc: Global,
    writer: &mut W,
    source: &[u8],
    seen: &[Seen<'_>],
    faults: &[FaultAt],
    asked: &Asked,
) -> Result<(), RunsError>
    requires { W.failed writer.old + 1 < 2 ^ 64 }
    ensures count { W.failed writer.new ≡ W.failed writer.old + write_failures result }
    ensures written { W.told ≡ true →
        WritesLines (HasListed source.now seen.now faults.now asked.now)
        (AreSome source.now seen.now faults.now asked.now)
        (W.written writer.old) (W.written writer.new) result }
{
    let mut starts = Vec::new(alloc);
    match write_statements(alloc, writer, &mut starts, source, seen, asked) {
        Ok(()) => {
            let starts = starts.as_slice();
            write_end(alloc, writer, source, starts, seen, faults, asked.places)
        }
        Err(refused) => Err(refused),
    }
}
