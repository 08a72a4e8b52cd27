//! Operations, each as its word and what it names, and how deep the stack is behind each.

ghost use Rattle.std.specs.Prelude.{◌≡◌, ◌≤◌};
ghost use Rattle.ick_code.specs.Compiled.{code_slots};
ghost use Rattle.ick_code.specs.Counts.{popped_by, pushed_by};
ghost use Rattle.ick_stages.specs.Operations.{counted_text, named_text, op_text, op_word};
ghost use Rattle.ick_stages.specs.Operations.{operation_line, operations_text};
ghost use Rattle.ick_inspect.specs.Text.{Adds};

use crate::body::append_gerund;
use crate::names::append_slot;
use ick_code::{Code, Op, SlotName};
use ick_inspect::Text;

/// Returns the word of an operation.
fn word_of(op: Op) -> &'static [u8]
    ensures { result.now ≡ op_word op }
{
    match op {
        Op::Constant(_) => b"Constant",
        Op::Load(_) => b"Load",
        Op::Fetch(_, _) => b"Fetch",
        Op::And => b"And",
        Op::Or => b"Or",
        Op::Xor => b"Xor",
        Op::Mingle => b"Mingle",
        Op::Select => b"Select",
        Op::Store(_) => b"Store",
        Op::StoreAt(_, _) => b"StoreAt",
        Op::Resize(_, _) => b"Resize",
        Op::Call(_) => b"Call",
        Op::Forget => b"Forget",
        Op::Resume => b"Resume",
        Op::Save(_) => b"Save",
        Op::Restore(_) => b"Restore",
        Op::Hide(_) => b"Hide",
        Op::Show(_) => b"Show",
        Op::AbstainOne(_) => b"AbstainOne",
        Op::ReinstateOne(_) => b"ReinstateOne",
        Op::AbstainKind(_) => b"AbstainKind",
        Op::ReinstateKind(_) => b"ReinstateKind",
        Op::Print => b"Print",
        Op::ReadTo(_) => b"ReadTo",
        Op::ReadAt(_, _) => b"ReadAt",
        Op::PrintArray(_) => b"PrintArray",
        Op::ReadArray(_) => b"ReadArray",
        Op::Stop => b"Stop",
        Op::Fail => b"Fail",
    }
}

/// Appends a space, the name of an array, a space and a count.
#[tactic(auto, unfolding(crate::specs::Operations::counted_text))]
fn append_counted(text: &mut Text, code: &Code<'_>, array: u32, count: u32)
    ensures { Adds text.old text.new (counted_text (code_slots code.now) array count) }
{
    text.push(b" ");
    append_slot(text, code, SlotName::Array(array));
    text.push(b" ");
    text.push_decimal(u64::from(count));
}

/// Appends what an operation names, behind a space.
fn append_named(text: &mut Text, code: &Code<'_>, op: Op)
    ensures { Adds text.old text.new (named_text (code_slots code.now) op) }
{
    match op {
        Op::Fetch(slot, count) | Op::StoreAt(slot, count) => append_counted(
            text, code, slot, count,
        ),
        Op::Resize(slot, count) | Op::ReadAt(slot, count) => append_counted(
            text, code, slot, count,
        ),
        Op::AbstainKind(gerund) | Op::ReinstateKind(gerund) => {
            text.push(b" ");
            append_gerund(text, gerund);
        }
        Op::Constant(n) => {
            text.push(b" ");
            text.push_decimal(u64::from(n));
        }
        Op::Call(n) | Op::AbstainOne(n) | Op::ReinstateOne(n) => {
            text.push(b" ");
            text.push_decimal(u64::from(n));
        }
        Op::Load(slot) | Op::Store(slot) | Op::ReadTo(slot) => {
            text.push(b" ");
            append_slot(text, code, SlotName::Scalar(slot));
        }
        Op::PrintArray(slot) | Op::ReadArray(slot) => {
            text.push(b" ");
            append_slot(text, code, SlotName::Array(slot));
        }
        Op::Save(name) | Op::Restore(name) | Op::Hide(name) | Op::Show(name) => {
            text.push(b" ");
            append_slot(text, code, name);
        }
        Op::And | Op::Or | Op::Xor | Op::Mingle | Op::Select => {}
        Op::Forget | Op::Resume | Op::Print | Op::Stop | Op::Fail => {}
    }
}

/// Appends an operation: `Load .1`, `Fetch ,1 2`. No end of line is appended.
#[tactic(auto, unfolding(crate::specs::Operations::op_text))]
pub fn append_operation(text: &mut Text, code: &Code<'_>, op: Op)
    ensures { Adds text.old text.new (op_text (code_slots code.now) op) }
{
    text.push(word_of(op));
    append_named(text, code, op);
}

/// Returns how many operands an operation pops.
fn popped(op: Op) -> u64
    ensures { result ≡ popped_by op }
{
    match op {
        Op::Fetch(_, count) | Op::Resize(_, count) | Op::ReadAt(_, count) => u64::from(count),
        Op::StoreAt(_, count) => u64::from(count) + 1,
        Op::And | Op::Or | Op::Xor | Op::Store(_) => 1,
        Op::Forget | Op::Resume | Op::Print => 1,
        Op::Mingle | Op::Select => 2,
        _ => 0,
    }
}

/// Returns how many operands an operation pushes.
pub fn pushed(op: Op) -> u64
    ensures count { result ≡ pushed_by op }
    ensures few { result ≤ 1 }
{
    match op {
        Op::Constant(_) | Op::Load(_) | Op::Fetch(_, _) => 1,
        Op::And | Op::Or | Op::Xor | Op::Mingle | Op::Select => 1,
        _ => 0,
    }
}

/// Appends the line of operation `number`, behind which there are so many operands.
#[tactic(auto, unfolding(crate::specs::Operations::operation_line))]
fn append_line(text: &mut Text, code: &Code<'_>, number: u64, depth: u64, op: Op)
    ensures { Adds text.old text.new (operation_line (code_slots code.now) number depth op) }
{
    text.push(b"  operation ");
    text.push_decimal(number);
    text.push(b" ");
    text.push_decimal(depth);
    text.push(b" ");
    append_operation(text, code, op);
    text.push(b"\n");
}

/// Appends a line for each operation of a statement: `  operation 3 1 Mingle`. The first number
/// counts the operations, and the second one says how many operands are on the stack behind it.
pub fn append_operations(text: &mut Text, code: &Code<'_>, ops: &[Op])
    ensures { Adds text.old text.new (operations_text (code_slots code.now) ops.now) }
{
    let mut depth = 0u64;
    let mut number = 0u64;
    for op in ops {
        depth = depth.saturating_sub(popped(*op)) + pushed(*op);
        number += 1;
        append_line(text, code, number, depth, *op);
    }
}
