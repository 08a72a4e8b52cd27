//! The steps by which a statement is lowered, one for each operation.

ghost use Rattle.std.specs.Prelude.{◌≡◌, ◌+◌, ◌<◌, ◌≤◌, length, OnOk};
ghost use Rattle.ick_code.specs.Counts.{popped_by};
ghost use Rattle.ick_code.specs.Compiled.{code_ops, code_program, code_slots};
ghost use Rattle.ick_inspect.specs.Text.{Adds};
ghost use Rattle.ick_lowering.specs.Lowering.{FollowsIn};
ghost use Rattle.ick_lowering.specs.Programs.{CanLower, IsNamed, LowersTo};
ghost use Rattle.ick_stages.specs.Registers.{names_of};
ghost use Rattle.ick_stages.specs.Rules.{seen_of};
ghost use Rattle.ick_stages.specs.Steps.{HasSteps, asked_text, before_of};
ghost use Rattle.ick_stages.specs.Steps.{is_constant as has_constant, line_by};
ghost use Rattle.ick_stages.specs.Steps.{left_text, made_by, made_of, rule_line};
ghost use Rattle.ick_stages.specs.Steps.{made_text, noted, operand_at as operand_in, operand_text};
ghost use Rattle.ick_stages.specs.Steps.{others_text, replaces as replacing, seen_by, step_text};
ghost use Rattle.ick_stages.specs.Steps.{stores_twospot};

use crate::instruction::append_instruction;
use crate::operation::pushed;
use crate::registers::Registers;
use crate::rule::{Step, append_rules};
use crate::value::append_value;
use ick_bits::NoMemory;
use ick_code::{Code, Op};
use ick_inspect::Text;
use ick_instructions::{Instruction, Layout};
use ick_lowering::draft::StatementDraft;
use ick_lowering::rules::add_operation;
use ick_lowering::value::Operand;
use ick_syntax::NameKind;

/// What a draft has before an operation.
#[derive(Clone, Copy)]
pub struct Before {
    /// How many instructions.
    pub count: usize,
    /// The second newest operand, and the newest one.
    pub left: Option<Operand>,
    pub right: Option<Operand>,
}

impl Before {
    /// Returns what a draft has.
    fn of(draft: &StatementDraft) -> Before
        ensures { result ≡ before_of draft.now }
    {
        Before {
            count: draft.instructions.len(),
            left: operand_at(draft, 2),
            right: operand_at(draft, 1),
        }
    }
}

/// Returns the operand with so many from it on.
fn operand_at(draft: &StatementDraft, newest: usize) -> Option<Operand>
    ensures { result ≡ operand_in draft.now newest }
{
    draft
        .stack
        .get(draft.stack.len().saturating_sub(newest))
        .copied()
}

/// Returns whether a step replaced the last instruction.
fn replaces(op: Op, before: usize, after: usize) -> bool
    ensures { result ≡ replacing op before after }
{
    matches!(op, Op::Store(_)) && after == before && after > 0
}

/// Returns whether an operation stores in a twospot.
fn is_twospot(code: &Code<'_>, op: Op) -> bool
    ensures { result ≡ stores_twospot (code_slots code.now) op }
{
    match op {
        Op::Store(slot) if slot < code.scalars() => code.scalar(slot).kind == NameKind::Twospot,
        _ => false,
    }
}

/// Returns what is seen of a step.
fn step_of<'a>(code: &Code<'_>, op: Op, before: &Before, draft: &'a StatementDraft) -> Step<'a>
    ensures { seen_of result ≡ seen_by (code_slots code.now) op before.now draft.now }
{
    let after = draft.instructions.len();
    let replaced = replaces(op, before.count, after);
    let from = if replaced {
        after - 1
    } else {
        before.count.min(after)
    };
    Step {
        op,
        is_twospot: is_twospot(code, op),
        left: before.left,
        right: before.right,
        made: &draft.instructions[from..],
        replaced,
        top: operand_at(draft, 1),
    }
}

/// Appends instructions, each behind ` | `.
fn append_others(text: &mut Text, registers: &Registers<'_, '_>, others: &[Instruction])
    ensures { Adds text.old text.new (others_text (names_of registers.now) others.now) }
{
    for i in others {
        text.push(b" | ");
        append_instruction(text, registers, *i);
    }
}

/// Appends instructions, the first one behind `: ` and each other one behind ` | `.
#[tactic(auto, unfolding(crate::specs::Steps::made_text))]
fn append_made(text: &mut Text, registers: &Registers<'_, '_>, made: &[Instruction])
    ensures { Adds text.old text.new (made_text (names_of registers.now) made.now) }
{
    if !made.is_empty() {
        text.push(b": ");
        append_instruction(text, registers, made[0]);
        append_others(text, registers, &made[1..]);
    }
}

/// Returns whether an operation is a constant's.
fn is_constant(op: Op) -> bool
    ensures { result ≡ has_constant op }
{
    matches!(op, Op::Constant(_))
}

/// Appends the operand that a step leaves, behind ` -> `, if it leaves one.
fn append_left(text: &mut Text, registers: &Registers<'_, '_>, step: &Step<'_>)
    ensures { Adds text.old text.new (left_text (names_of registers.now) (seen_of step.now)) }
{
    if pushed(step.op) != 0 {
        append_operand(text, registers, step.top);
    }
}

/// Appends an operand behind ` -> `.
fn append_operand(text: &mut Text, registers: &Registers<'_, '_>, operand: Option<Operand>)
    ensures { Adds text.old text.new (operand_text (names_of registers.now) operand) }
{
    if let Some(operand) = operand {
        text.push(b" -> ");
        append_value(text, registers, operand);
    }
}

/// Appends the line of a step that is no constant's.
#[tactic(auto, unfolding(crate::specs::Steps::rule_line))]
fn append_line(text: &mut Text, registers: &Registers<'_, '_>, number: u32, step: &Step<'_>)
    ensures { Adds text.old text.new
        (rule_line (names_of registers.now) number (seen_of step.now)) }
{
    text.push(b"  rule ");
    text.push_decimal(u64::from(number));
    text.push(b" ");
    append_rules(text, registers, step);
    append_made(text, registers, step.made);
    append_left(text, registers, step);
    text.push(b"\n");
}

/// Appends the line of step `number`, as `  rule 4 as-it-is: t2 = XorWide t1 -> t2, 32 bits`. A
/// constant has no such line. Nothing is appended if lines are not asked for.
fn append_step(
    text: &mut Text,
    registers: &Registers<'_, '_>,
    number: u32,
    step: &Step<'_>,
    asked: bool,
)
    ensures { Adds text.old text.new
        (asked_text asked (step_text (names_of registers.now) number (seen_of step.now))) }
{
    if asked && !is_constant(step.op) {
        append_line(text, registers, number, step);
    }
}

/// The operations by which instructions of a draft were made.
#[derive(Drop)]
pub struct Makers {
    /// For each instruction, the number of its operation.
    pub first: Vec<u32>,
    /// The number of the operation that replaced the last instruction, or 0.
    pub store: u32,
}

impl Makers {
    /// Notes that operation `number` left so many instructions.
    fn note(&mut self, number: u32, replaced: bool, count: usize) -> Result<(), NoMemory>
        ensures { OnOk result (made_of self.new ≡ noted number replaced count (made_of self.old)) }
    {
        if replaced {
            self.store = number;
        } else if count > self.first.len() {
            self.store = 0;
        }
        self.first.resize(count, number).or(Err(NoMemory))
    }
}

/// Lowers one more operation, which is operation `number` of its statement.
fn append_next(
    text: &mut Text,
    draft: &mut StatementDraft,
    makers: &mut Makers,
    code: &Code<'_>,
    layout: Layout,
    op: Op,
    number: u32,
    asked: bool,
) -> Result<(), NoMemory>
    requires room { layout.base + draft.old.used < layout.first }
    requires named { IsNamed code.now op }
    requires operands { popped_by op ≤ length draft.old.stack.items }
    ensures follows { OnOk result (FollowsIn code.now layout op draft.old draft.new) }
    ensures made { OnOk result (made_of makers.new
        ≡ made_by number op draft.old draft.new (made_of makers.old)) }
    ensures added { OnOk result (Adds text.old text.new (asked_text asked
        (line_by (code_slots code.now) layout number op draft.old draft.new))) }
{
    let before = Before::of(&*draft);
    add_operation(draft, code, layout, op)?;
    let step = step_of(&*code, op, &before, &*draft);
    makers.note(number, step.replaced, draft.instructions.len())?;
    let registers = Registers::of_draft(&*code, layout, &*draft);
    append_step(text, &registers, number, &step, asked);
    Ok(())
}

/// Lowers statement `n` again, operation by operation, and appends a line for each step if lines
/// are asked for. `makers` gets the operations that made the instructions.
#[tactic(auto, using(ick_lowering::proofs::Statements::lists_of_operations))]
pub fn append_steps(
    text: &mut Text,
    draft: &mut StatementDraft,
    makers: &mut Makers,
    code: &Code<'_>,
    layout: Layout,
    n: u32,
    asked: bool,
) -> Result<(), NoMemory>
    requires first { 1 ≤ n }
    requires last { n ≤ length (code_program code.now) }
    requires lowers { CanLower code.now layout (code_ops code.now n) draft.old }
    ensures lowers { OnOk result
        (LowersTo code.now layout (code_ops code.now n) draft.old draft.new) }
    ensures steps { OnOk result (HasSteps (code_program code.now) (code_slots code.now) layout asked
        (code_ops code.now n) draft.old draft.new text.old text.new (made_of makers.new)) }
{
    draft.instructions.clear();
    draft.stack.clear();
    draft.used = 0;
    makers.first.clear();
    makers.store = 0;
    let mut number = 0u32;
    let ops = code.ops(n);
    for op in ops {
        number += 1;
        append_next(text, draft, makers, code, layout, *op, number, asked)?;
    }
    Ok(())
}
