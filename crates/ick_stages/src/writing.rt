//! The stages of a whole program, written statement by statement.

ghost use Rattle.std.specs.Prelude.{◌≡◌, ◌+◌, ◌<◌, ◌≤◌, ◌^◌, IfOk, None, OnOk, false};
ghost use Rattle.std.specs.Prelude.{length, true};
ghost use Rattle.ick_code.specs.Compiled.{code_ops, code_program};
ghost use Rattle.ick_explorer.specs.Writes.{write_failures};
ghost use Rattle.ick_lowering.specs.Programs.{CanLower, LowersTo};
ghost use Rattle.ick_stages.specs.Lines.{WritesPiece, WritesText};
ghost use Rattle.ick_stages.specs.Stages.{IsReady, Writes};
ghost use Rattle.ick_stages.specs.Starts.{IsPoint};
ghost use Rattle.ick_stages.specs.Traces.{AreOfProgram};
ghost use Rattle.ick_stages.specs.Writing.{HasPiece};
ghost use Rattle.ick_syntax.specs.Programs.{trees_of};
ghost use Rattle.ick_syntax.specs.StatementTree.{statement_tree_of};

use crate::placed::placed_at;
use crate::point::Point;
use crate::stages::{Asked, Work, append_stage, are_both, is_shown};
use crate::trace::traces_of;
use ick_bits::NoMemory;
use ick_code::Code;
use ick_devices::{ByteSink, write_whole};
use ick_explorer::RunsError;
use ick_inspect::Text;
use ick_instructions::{Layout, Lowered};
use ick_lowering::lower;
use ick_lowering::lowering::layout_of;
use ick_syntax::{Program, Statement};
use ick_traces::Candidate;
use std::alloc::Global;

/// What the lines of a program are made from.
#[derive(Drop)]
pub struct Ready<'a, 'c> {
    pub lowered: Lowered<'a, 'c>,
    /// The traces of the program, if their lines are asked for.
    pub traces: Option<Candidate>,
    pub layout: Layout,
}

impl<'a, 'c> Ready<'a, 'c> {
    /// Lowers a code that was compiled from a source, and finds where its statements are.
    fn new(alloc: Global, code: &'a Code<'c>, asked: &Asked) -> Result<Ready<'a, 'c>, NoMemory>
        ensures ready { IfOk result (IsReady code.now asked.now) }
    {
        let lowered = lower(alloc, code)?;
        let traces = traces_if(alloc, &lowered, asked.traces)?;
        let layout = layout_of(code)?;
        Ok(Ready {
            lowered,
            traces,
            layout,
        })
    }
}

/// Returns the traces of a program, if they are asked for.
fn traces_if(
    alloc: Global,
    lowered: &Lowered<'_, '_>,
    asked: bool,
) -> Result<Option<Candidate>, NoMemory>
    ensures traces { IfOk result (AreOfProgram lowered.now) }
    ensures unasked { asked ≡ false → IfOk result (λ traces. traces ≡ None) }
{
    if !asked {
        return Ok(None);
    }
    traces_of(alloc, lowered)
}

/// Writes bytes whole.
pub fn write_bytes<W: ByteSink>(writer: &mut W, bytes: &[u8]) -> Result<(), RunsError>
    requires { W.failed writer.old + 1 < 2 ^ 64 }
    ensures count { W.failed writer.new ≡ W.failed writer.old + write_failures result }
    ensures written { W.told ≡ true → WritesText false bytes.now
        (W.written writer.old) (W.written writer.new) result }
{
    match write_whole(writer, bytes) {
        Ok(()) => Ok(()),
        Err(_) => Err(RunsError::Write),
    }
}

/// Writes a text, unless memory was refused for it.
pub fn write_text<W: ByteSink>(writer: &mut W, text: &Text) -> Result<(), RunsError>
    requires { W.failed writer.old + 1 < 2 ^ 64 }
    ensures count { W.failed writer.new ≡ W.failed writer.old + write_failures result }
    ensures written { W.told ≡ true → WritesText text.now.refused text.now.bytes.items
        (W.written writer.old) (W.written writer.new) result }
{
    match text.bytes() {
        Ok(bytes) => write_bytes(writer, bytes),
        Err(NoMemory) => Err(RunsError::NoMemory),
    }
}

/// Lowers statement `n` again, and writes the lines of its stages that are asked for, all at once.
fn write_stage<W: ByteSink>(
    alloc: Global,
    writer: &mut W,
    text: &mut Text,
    work: &mut Work,
    ready: &Ready<'_, '_>,
    source: &[u8],
    start: Point,
    statement: &Statement<'_>,
    n: u32,
    asked: &Asked,
) -> Result<(), RunsError>
    requires first { 1 ≤ n }
    requires last { n ≤ length (code_program ready.now.lowered.code.now) }
    requires point { IsPoint source.now start }
    requires few { n < 4294967295 }
    requires lowers { CanLower ready.now.lowered.code.now ready.now.layout
        (code_ops ready.now.lowered.code.now n) work.old.draft }
    requires room { W.failed writer.old + 1 < 2 ^ 64 }
    ensures lowers { OnOk result (LowersTo ready.now.lowered.code.now ready.now.layout
        (code_ops ready.now.lowered.code.now n) work.old.draft work.new.draft) }
    ensures count { W.failed writer.new ≡ W.failed writer.old + write_failures result }
    ensures written { W.told ≡ true → WritesPiece (HasPiece ready.now source.now
        asked.now n start.at (statement_tree_of statement.now) work.old.draft work.new.draft)
        (W.written writer.old) (W.written writer.new) result }
{
    text.clear();
    let wanted = are_both(is_shown(asked.only, n), asked.parts);
    let placed = match placed_at(alloc, source, start, statement, wanted) {
        Ok(placed) => placed,
        Err(NoMemory) => return Err(RunsError::NoMemory),
    };
    let made = append_stage(
        text,
        work,
        &ready.lowered,
        &ready.traces,
        ready.layout,
        statement,
        &placed,
        n,
        asked,
    );
    match made {
        Ok(()) => write_text(writer, &*text),
        Err(NoMemory) => Err(RunsError::NoMemory),
    }
}

/// Writes the lines of the stages of a program that are asked for, statement by statement, and
/// `DONE`. The code is that of the program, which was read from the source. The answer is
/// `NoMemory` if memory runs out, and the lines of the statements before are written then. It is
/// `Write` if the writer fails, and a prefix of the lines is written then.
///
/// The writer's count of failures must be below its greatest value.
pub fn write_stages<W: ByteSink>(
    alloc: Global,
    writer: &mut W,
    source: &[u8],
    program: &Program<'_>,
    code: &Code<'_>,
    asked: &Asked,
) -> Result<(), RunsError>
    requires same { trees_of program.now ≡ code_program code.now }
    requires room { W.failed writer.old + 1 < 2 ^ 64 }
    ensures count { W.failed writer.new ≡ W.failed writer.old + write_failures result }
    ensures written { W.told ≡ true → Writes code.now source.now asked.now
        (W.written writer.old) (W.written writer.new) result }
{
    // What is lowered again needs that the operations are those of the program.
    code.law();
    let ready = match Ready::new(alloc, code, asked) {
        Ok(ready) => ready,
        Err(NoMemory) => return Err(RunsError::NoMemory),
    };
    let statements = program.statements();
    let mut work = Work::new(alloc);
    let mut text = Text::new(alloc);
    let mut point = Point::first();
    for at in 0..code.count() {
        let statement = &statements[at as usize];
        let start = point.past_white(source);
        match write_stage(
            alloc,
            writer,
            &mut text,
            &mut work,
            &ready,
            source,
            start,
            statement,
            at + 1,
            asked,
        ) {
            Ok(()) => {}
            Err(refused) => return Err(refused),
        }
        point = start.past_text(source, statement.text);
    }
    write_bytes(writer, b"DONE\n")
}
