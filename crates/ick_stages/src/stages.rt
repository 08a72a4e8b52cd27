//! The stages of a statement.

ghost use Rattle.std.specs.Prelude.{◌≡◌, ◌<◌, ◌≤◌, ◌&&◌, [], length, OnOk};
ghost use Rattle.ick_code.specs.Compiled.{code_ops, code_program, code_slots};
ghost use Rattle.ick_inspect.specs.Text.{Adds};
ghost use Rattle.ick_lowering.specs.Programs.{CanLower, LowersTo};
ghost use Rattle.ick_stages.specs.Left.{dropped_text, instructions_text, kept_of, sorts_of};
ghost use Rattle.ick_stages.specs.Operations.{operations_text};
ghost use Rattle.ick_stages.specs.Parts.{parts_text_of};
ghost use Rattle.ick_stages.specs.Registers.{drafted, lowered_names};
ghost use Rattle.ick_stages.specs.Stages.{AddsStage, bottom_text, is_shown as shows};
ghost use Rattle.ick_stages.specs.Stages.{needs_code, top_text, tree_line};
ghost use Rattle.ick_stages.specs.Steps.{asked_text, made_of};
ghost use Rattle.ick_stages.specs.Traces.{traces_text};
ghost use Rattle.ick_syntax.specs.BodyTree.{body_tree_of};
ghost use Rattle.ick_syntax.specs.StatementTree.{statement_tree_of};

use crate::body::append_body;
use crate::left::{Sorted, append_dropped, append_instructions, instructions_of};
use crate::operation::append_operations;
use crate::parts::append_parts;
use crate::placed::{Parts, Placed};
use crate::registers::Registers;
use crate::statement::append_line;
use crate::steps::{Makers, append_steps};
use crate::trace::{Place, append_traces};
use ick_bits::NoMemory;
use ick_code::Code;
use ick_inspect::Text;
use ick_instructions::{Layout, Lowered};
use ick_lowering::draft::StatementDraft;
use ick_syntax::{Body, Statement};
use ick_traces::Candidate;
use std::alloc::Global;

/// Which lines of statements are asked for. The line of a statement always is.
#[derive(Clone, Copy)]
pub struct Asked {
    pub tree: bool,
    pub operations: bool,
    /// The lines of the parts of which operations are made.
    pub parts: bool,
    /// All other lines of places. They are shown only with those of parts.
    pub places: bool,
    pub rules: bool,
    pub instructions: bool,
    pub traces: bool,
    /// The number of the only statement that is shown.
    pub only: Option<u32>,
}

/// A statement that is lowered again: its draft, the operations that made the instructions, and
/// what becomes of these. The place is where a run is along a trace.
#[derive(Drop)]
pub struct Work {
    pub draft: StatementDraft,
    makers: Makers,
    sorted: Sorted,
    place: Place,
}

impl Work {
    /// Returns a draft of nothing.
    pub fn new(alloc: Global) -> Work
        ensures subscripts { result.draft.subscripts.items ≡ [] }
        ensures constants { result.draft.constants.list.items ≡ [] }
    {
        Work {
            draft: StatementDraft::new(alloc),
            makers: Makers {
                first: Vec::new(alloc),
                store: 0,
            },
            sorted: Sorted::new(alloc),
            place: Place::new(alloc, 0),
        }
    }
}

impl Asked {
    /// Returns whether any lines are asked for that a program's code gives.
    pub fn needs_code(&self) -> bool
        ensures { result ≡ needs_code self.now }
    {
        self.operations || self.rules || self.instructions || self.traces
    }
}

/// Returns whether a statement is shown.
pub fn is_shown(only: Option<u32>, n: u32) -> bool
    ensures { result ≡ shows only n }
{
    match only {
        None => true,
        Some(only) => only == n,
    }
}

/// Returns whether a statement is shown and its lines are asked for.
pub fn are_both(shown: bool, asked: bool) -> bool
    ensures { result ≡ shown && asked }
{
    shown && asked
}

/// Appends the tree of a statement, if it is asked for.
pub fn append_tree_line(text: &mut Text, body: &Body, asked: bool)
    ensures { Adds text.old text.new (asked_text asked (tree_line (body_tree_of body.now))) }
{
    if asked {
        append_tree_of(text, body);
    }
}

/// Appends the tree of a statement.
fn append_tree_of(text: &mut Text, body: &Body)
    ensures { Adds text.old text.new (tree_line (body_tree_of body.now)) }
{
    text.push(b"  tree ");
    append_body(text, body);
    text.push(b"\n");
}

/// Appends the operations of a statement, if they are asked for.
fn append_operation_lines(text: &mut Text, code: &Code<'_>, n: u32, asked: bool)
    requires first { 1 ≤ n }
    requires last { n ≤ length (code_program code.now) }
    ensures { Adds text.old text.new (asked_text asked
        (operations_text (code_slots code.now) (code_ops code.now n))) }
{
    if asked {
        append_operations(text, code, code.ops(n));
    }
}

/// Appends the lines of the parts of a statement, if they were found.
pub fn append_parts_of(text: &mut Text, parts: &Option<Parts>, all: bool)
    ensures { Adds text.old text.new (parts_text_of parts.now all) }
{
    match parts {
        None => {}
        Some(parts) => append_parts(text, parts, all),
    }
}

/// Appends the lines of a statement that its text gives: its own line, its tree, its operations and
/// the places of its parts.
#[tactic(auto, unfolding(crate::specs::Stages::top_text))]
fn append_top(
    text: &mut Text,
    code: &Code<'_>,
    statement: &Statement<'_>,
    placed: &Placed,
    n: u32,
    asked: &Asked,
)
    requires first { 1 ≤ n }
    requires last { n ≤ length (code_program code.now) }
    ensures { Adds text.old text.new
        (top_text code.now asked.now n (statement_tree_of statement.now) placed.now) }
{
    append_line(text, n, statement, placed.position);
    append_tree_line(text, &statement.body, asked.tree);
    append_operation_lines(text, code, n, asked.operations);
    append_parts_of(text, &placed.parts, asked.places);
}

/// Appends the lines of the instructions of a draft that are dropped, if they are asked for.
fn append_dropped_lines(text: &mut Text, work: &Work, code: &Code<'_>, layout: Layout, asked: bool)
    ensures { Adds text.old text.new (asked_text asked (dropped_text
        (drafted code.now layout work.now.draft) work.now.draft.instructions.items
        (made_of work.now.makers).first (sorts_of work.now.sorted).dropped)) }
{
    if asked {
        let registers = Registers::of_draft(&*code, layout, &work.draft);
        append_dropped(
            text,
            &registers,
            &work.draft,
            &work.makers,
            &work.sorted.dropped,
        );
    }
}

/// Appends the lines of the instructions of a statement, if they are asked for.
fn append_instruction_lines(
    text: &mut Text,
    work: &Work,
    lowered: &Lowered<'_, '_>,
    n: u32,
    asked: bool,
)
    requires { n < 4294967295 }
    ensures { Adds text.old text.new (asked_text asked (instructions_text
        (lowered_names lowered.now) (made_of work.now.makers) (sorts_of work.now.sorted).left
        (kept_of lowered.now.parts n))) }
{
    if asked {
        let registers = Registers::of_lowered(&*lowered);
        let kept = instructions_of(&*lowered, n);
        append_instructions(text, &registers, &work.makers, &work.sorted.left, kept);
    }
}

/// Appends the lines of a statement that its draft and its instructions give.
fn append_bottom(
    text: &mut Text,
    work: &Work,
    lowered: &Lowered<'_, '_>,
    layout: Layout,
    n: u32,
    asked: &Asked,
)
    requires { n < 4294967295 }
    ensures { Adds text.old text.new (bottom_text lowered.now layout asked.now n work.now.draft
        (made_of work.now.makers) (sorts_of work.now.sorted)) }
{
    append_dropped_lines(text, work, lowered.code, layout, asked.rules);
    append_instruction_lines(text, work, lowered, n, asked.instructions);
}

/// Appends the lines that the text of a statement gives, if the statement is shown.
fn append_top_if(
    text: &mut Text,
    code: &Code<'_>,
    statement: &Statement<'_>,
    placed: &Placed,
    n: u32,
    asked: &Asked,
    shown: bool,
)
    requires first { 1 ≤ n }
    requires last { n ≤ length (code_program code.now) }
    ensures { Adds text.old text.new (asked_text shown
        (top_text code.now asked.now n (statement_tree_of statement.now) placed.now)) }
{
    if shown {
        append_top(text, code, statement, placed, n, asked);
    }
}

/// Appends the lines that the draft and the instructions of a statement give, if it is shown.
fn append_bottom_if(
    text: &mut Text,
    work: &Work,
    lowered: &Lowered<'_, '_>,
    layout: Layout,
    n: u32,
    asked: &Asked,
    shown: bool,
)
    requires { n < 4294967295 }
    ensures { Adds text.old text.new (asked_text shown (bottom_text lowered.now layout asked.now n
        work.now.draft (made_of work.now.makers) (sorts_of work.now.sorted))) }
{
    if shown {
        append_bottom(text, work, lowered, layout, n, asked);
    }
}

/// Appends the lines of the trace that begins with a statement, if they are asked for.
fn append_traces_if(
    text: &mut Text,
    place: &mut Place,
    lowered: &Lowered<'_, '_>,
    traces: &Option<Candidate>,
    n: u32,
    asked: bool,
) -> Result<(), NoMemory>
    ensures { OnOk result (Adds text.old text.new
        (asked_text asked (traces_text lowered.now traces.now n))) }
{
    if !asked {
        return Ok(());
    }
    append_traces(text, place, lowered, traces, n)
}

/// Lowers statement `n` again, and appends the lines of its stages that are asked for.
pub fn append_stage(
    text: &mut Text,
    work: &mut Work,
    lowered: &Lowered<'_, '_>,
    traces: &Option<Candidate>,
    layout: Layout,
    statement: &Statement<'_>,
    placed: &Placed,
    n: u32,
    asked: &Asked,
) -> Result<(), NoMemory>
    requires first { 1 ≤ n }
    requires last { n ≤ length (code_program lowered.now.code.now) }
    requires few { n < 4294967295 }
    requires lowers { CanLower lowered.now.code.now layout (code_ops lowered.now.code.now n)
        work.old.draft }
    ensures lowers { OnOk result (LowersTo lowered.now.code.now layout
        (code_ops lowered.now.code.now n) work.old.draft work.new.draft) }
    ensures stage { OnOk result (AddsStage lowered.now traces.now layout asked.now n
        (statement_tree_of statement.now) placed.now work.old.draft work.new.draft
        text.old text.new) }
{
    let shown = is_shown(asked.only, n);
    append_top_if(text, lowered.code, statement, placed, n, asked, shown);
    let lines = are_both(shown, asked.rules);
    append_steps(
        text,
        &mut work.draft,
        &mut work.makers,
        lowered.code,
        layout,
        n,
        lines,
    )?;
    let kept = instructions_of(&*lowered, n);
    work.sorted.sort_all(&work.draft, &work.makers, kept)?;
    append_bottom_if(text, &*work, lowered, layout, n, asked, shown);
    let traced = are_both(shown, asked.traces);
    append_traces_if(text, &mut work.place, lowered, traces, n, traced)?;
    Ok(())
}
