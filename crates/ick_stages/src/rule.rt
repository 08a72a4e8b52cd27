//! The names of the rules of lowering, by what is seen of a step: the operation, the operands that
//! it takes, the instructions that it makes, and the operand that it leaves.

ghost use Rattle.std.specs.Prelude.{◌≡◌};
ghost use Rattle.ick_inspect.specs.Text.{Adds};
ghost use Rattle.ick_stages.specs.Registers.{names_of};
ghost use Rattle.ick_stages.specs.Rules.{has_narrow, have_one_register, is_known, is_mingled};
ghost use Rattle.ick_stages.specs.Rules.{last_operation, mask_of, rule_of_mingle, rule_of_select};
ghost use Rattle.ick_stages.specs.Rules.{rule_of_store, rule_of_unary, rules_text, select_rules};
ghost use Rattle.ick_stages.specs.Rules.{seen_of, side_text};

use crate::registers::Registers;
use ick_code::Op;
use ick_inspect::Text;
use ick_instructions::{Instruction, Operation};
use ick_lowering::value::{Operand, OperandWidth, Shape};

/// What is seen of a step of lowering.
#[derive(Clone, Copy)]
pub struct Step<'a> {
    pub op: Op,
    /// Whether the operation stores in a twospot.
    pub is_twospot: bool,
    /// The second newest operand before the operation, and the newest one.
    pub left: Option<Operand>,
    pub right: Option<Operand>,
    /// The instructions that the operation made.
    pub made: &'a [Instruction],
    /// Whether the first of them replaced an instruction of an earlier operation.
    pub replaced: bool,
    /// The newest operand behind the operation.
    pub top: Option<Operand>,
}

/// Returns the operation of the last instruction that a step made.
fn last_of(made: &[Instruction]) -> Option<Operation>
    ensures { result ≡ last_operation made.now }
{
    match made.last() {
        Some(i) => Some(i.operation),
        None => None,
    }
}

/// Returns whether an operand is a constant.
fn is_constant(registers: &Registers<'_, '_>, operand: Option<Operand>) -> bool
    ensures { result ≡ is_known (names_of registers.now) operand }
{
    match operand {
        Some(operand) => operand.register >= registers.layout.first,
        None => false,
    }
}

/// Returns the number of an operand that is a constant.
fn mask(registers: &Registers<'_, '_>, operand: Option<Operand>) -> Option<u32>
    ensures { result ≡ mask_of (names_of registers.now) operand }
{
    let register = operand?.register;
    let at = register.checked_sub(registers.layout.first)?;
    registers.constants.get(at as usize).copied()
}

/// Returns whether an operand is a mingle.
fn is_mingle(operand: Option<Operand>) -> bool
    ensures { result ≡ is_mingled operand }
{
    match operand {
        Some(operand) => matches!(operand.facts.shape, Shape::Mingle(_, _, _, _)),
        None => false,
    }
}

/// Returns the rule by which a mask selects from one operand of a mingle, with a `+` behind it.
fn side_of(registers: &Registers<'_, '_>, step: &Step<'_>) -> &'static [u8]
    ensures { result.now ≡ side_text (names_of registers.now) step.now.left step.now.right }
{
    match mask(registers, step.right) {
        Some(mask) if is_mingle(step.left) => {
            if mask & 2_863_311_530 == 0 {
                b"select-from-the-right-operand+"
            } else if mask & 1_431_655_765 == 0 {
                b"select-from-the-left-operand+"
            } else {
                b""
            }
        }
        _ => b"",
    }
}

/// Returns the rule of a unary operator.
fn rule_of_unary_operator(step: &Step<'_>) -> &'static [u8]
    ensures { result.now ≡ rule_of_unary (last_operation (seen_of step.now).made) }
{
    match last_of(step.made) {
        None => b"fold-a-unary-operator",
        Some(Operation::Pick) => b"few-bits",
        Some(_) => b"as-it-is",
    }
}

/// Returns the rule of a mingle.
fn rule_of_a_mingle(step: &Step<'_>) -> &'static [u8]
    ensures { result.now ≡ rule_of_mingle (seen_of step.now).made }
{
    match last_of(step.made) {
        None => b"fold-a-mingle",
        Some(Operation::Pick) => b"few-bits",
        Some(Operation::LookUp) => b"mingle-by-a-table",
        Some(Operation::Field) => b"join-the-halves-of-a-field",
        Some(Operation::And | Operation::Or | Operation::Xor) => b"join-the-halves-of-an-operator",
        Some(Operation::Mingle) if step.made.len() < 3 => b"no-check",
        Some(_) => b"as-it-is",
    }
}

/// Appends the rules of a selection.
fn append_select_rules(text: &mut Text, registers: &Registers<'_, '_>, step: &Step<'_>)
    ensures { Adds text.old text.new (select_rules (names_of registers.now) (seen_of step.now)) }
{
    let side = side_of(registers, step);
    match last_of(step.made) {
        None if is_constant(registers, step.top) && is_constant(registers, step.left) => {
            text.push(b"fold-a-select");
        }
        None => {
            text.push(side);
            text.push(b"select-all");
        }
        Some(Operation::LookUp) => {
            text.push(side);
            text.push(b"select-by-a-table");
        }
        Some(Operation::Field) => {
            text.push(side);
            text.push(b"select-a-field");
        }
        Some(operation) => text.push(rule_of_selecting(operation, are_same(step))),
    }
}

/// Returns whether the two operands are in one register.
fn are_same(step: &Step<'_>) -> bool
    ensures { result ≡ have_one_register step.now.left step.now.right }
{
    match (step.left, step.right) {
        (Some(left), Some(right)) => left.register == right.register,
        _ => false,
    }
}

/// Returns the rule of a selection by the last instruction that it makes.
fn rule_of_selecting(operation: Operation, one: bool) -> &'static [u8]
    ensures { result.now ≡ rule_of_select operation one }
{
    match operation {
        Operation::Pick => b"few-bits",
        Operation::ShiftIn => b"shift-left",
        Operation::AndShifted | Operation::OrShifted => b"shift-the-right-operand",
        Operation::XorShifted => b"shift-the-right-operand",
        Operation::And | Operation::Or | Operation::Xor => b"half-of-a-unary-of-a-mingle",
        Operation::AndRotated | Operation::OrRotated => b"half-of-a-unary-of-a-mingle",
        Operation::XorRotated => b"half-of-a-unary-of-a-mingle",
        Operation::Ones if one => b"n~n",
        Operation::Ones => b"one-field-twice",
        Operation::NonZero => b"n~n",
        _ => b"as-it-is",
    }
}

/// Returns whether an operand has 16 bits.
fn is_narrow(operand: Option<Operand>) -> bool
    ensures { result ≡ has_narrow operand }
{
    match operand {
        Some(operand) => matches!(operand.facts.width, OperandWidth::Narrow),
        None => false,
    }
}

/// Returns the rule of a store in a scalar.
fn rule_of_a_store(step: &Step<'_>) -> &'static [u8]
    ensures { result.now ≡ rule_of_store (seen_of step.now) }
{
    if !step.replaced {
        return match last_of(step.made) {
            Some(Operation::Copy) => b"copy-in-place-of-a-store",
            _ => b"as-it-is",
        };
    }
    match last_of(step.made) {
        Some(Operation::Fetch) => b"fetch-into-the-scalar",
        _ if step.is_twospot => b"calculate-into-a-twospot",
        _ if is_narrow(step.right) => b"calculate-into-the-scalar",
        _ => b"calculate-into-the-scalar+no-fault-275",
    }
}

/// Appends the names of the rules of a step, with a `+` between them, or `as-it-is`.
pub fn append_rules(text: &mut Text, registers: &Registers<'_, '_>, step: &Step<'_>)
    ensures { Adds text.old text.new (rules_text (names_of registers.now) (seen_of step.now)) }
{
    match step.op {
        Op::Constant(_) => text.push(b"constant"),
        Op::Load(_) => text.push(b"read-in-place"),
        Op::And | Op::Or | Op::Xor => text.push(rule_of_unary_operator(step)),
        Op::Mingle => text.push(rule_of_a_mingle(step)),
        Op::Select => append_select_rules(text, registers, step),
        Op::Store(_) => text.push(rule_of_a_store(step)),
        Op::AbstainOne(_) | Op::ReinstateOne(_) if step.made.is_empty() => {
            text.push(b"statement-that-stays");
        }
        _ => text.push(b"as-it-is"),
    }
}
