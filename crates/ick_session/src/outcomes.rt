//! What an expression has in a state: a value, or a fault.

ghost use Rattle.std.specs.Prelude.{◌≡◌, ◌<◌, Err, Ok, IfErr, IfOk, IfSome, length};
ghost use Rattle.ick_code.specs.meaning.Value.{and_then, binary_value, element_offset};
ghost use Rattle.ick_code.specs.meaning.Value.{element_value};
ghost use Rattle.ick_code.specs.meaning.Value.{sized, unary_value, value_of, values_of};
ghost use Rattle.ick_machine.specs.StateView.{present_state};
ghost use Rattle.ick_runtime.specs.Elements.{stride};
ghost use Rattle.ick_session.specs.Outcomes.{within};
ghost use Rattle.ick_syntax.specs.Tree.{element, tree_of, trees_in};

use ick_bits::{FaultKind, NoMemory, Value, mingle, select, unary_and, unary_or, unary_xor};
use ick_inspect::{StateView, dimensions, elements, number};
use ick_syntax::{BinaryOp, Element, Expr, Name, NameKind, UnaryOp};
use std::alloc::Global;

/// A value, or a fault.
pub type Outcome = Result<Value, FaultKind>;

/// Returns a number in the width of a kind of variable.
fn sized(kind: NameKind, number: u32) -> Value
    ensures { result ≡ sized kind number }
{
    match kind {
        NameKind::Onespot | NameKind::Tail => Value::sixteen((number % 65_536) as u16),
        NameKind::Twospot | NameKind::Hybrid => Value::thirty_two(number),
    }
}

/// Returns what an operator on one value gives.
fn applied(op: UnaryOp, operand: Outcome) -> Outcome
    ensures { result ≡ and_then operand (λ v. Ok (unary_value op v)) }
{
    let value = operand?;
    Ok(match op {
        UnaryOp::And => unary_and(value),
        UnaryOp::Or => unary_or(value),
        UnaryOp::Xor => unary_xor(value),
    })
}

/// Returns what an operator on two values gives. The fault of the left one comes first.
fn joined(op: BinaryOp, left: Outcome, right: Outcome) -> Outcome
    ensures { result ≡ and_then left (λ v. and_then right (λ w. binary_value op v w)) }
{
    let left = left?;
    let right = right?;
    match op {
        BinaryOp::Mingle => mingle(left, right),
        BinaryOp::Select => Ok(select(left, right)),
    }
}

/// Returns the offset after one more subscript, if it is below a count.
fn next_offset(offset: usize, dimension: u32, number: u32, count: usize) -> Option<usize>
    ensures { result ≡ within count (stride offset dimension number) }
{
    if number == 0 || number > dimension {
        return None;
    }
    let next = offset as u128 * u128::from(dimension) + u128::from(number - 1);
    if next < count as u128 {
        Some(next as usize)
    } else {
        None
    }
}

/// Returns the offset of the element with these subscripts, if the array has it (Revised Manual,
/// 3.3).
fn offset_of(dimensions: &[u32], elements: &[u32], subs: &[Value]) -> Option<usize>
    ensures index { result ≡ element_offset
        (record { dimensions = dimensions.now; elements = elements.now }) subs.now }
    ensures below { IfSome result (λ at. at < length elements.now) }
{
    if dimensions.len() != subs.len() {
        return None;
    }
    let count = elements.len();
    let mut offset = 0;
    for at in 0..subs.len() {
        offset = next_offset(offset, dimensions[at], subs[at].number(), count)?;
    }
    if offset < count { Some(offset) } else { None }
}

/// Returns what the element of an array at these subscripts has.
fn element_at(present: &StateView<'_, '_, '_>, name: Name, subs: &[Value]) -> Outcome
    ensures { result
        ≡ element_value name ((present_state present.now).arrays name) subs.now }
{
    let all = elements(present, name);
    match offset_of(dimensions(present, name), all, subs) {
        Some(at) => Ok(sized(name.kind, all[at])),
        None => Err(FaultKind::Hyperspace),
    }
}

/// Returns what an expression has in a state, by the meaning of the language. A name that the
/// program doesn't have is that of a variable that is 0, or of an array without dimensions.
/// `NoMemory` is the only refusal.
#[cycle(outcome)]
pub fn outcome_of(
    alloc: Global,
    present: &StateView<'_, '_, '_>,
    e: &Expr,
) -> Result<Outcome, NoMemory>
    ensures { IfOk result (λ outcome.
        outcome ≡ value_of (tree_of e.now) (present_state present.now)) }
{
    match e {
        Expr::Mesh(number) => Ok(Ok(Value::sixteen(*number))),
        Expr::Scalar(name) => Ok(Ok(sized(name.kind, number(present, *name)))),
        Expr::Element(element) => element_outcome(alloc, present, element),
        Expr::Unary(op, inner) => {
            let operand = outcome_of(alloc, present, inner)?;
            Ok(applied(*op, operand))
        }
        Expr::Binary(op, left, right) => {
            let left = outcome_of(alloc, present, left)?;
            let right = outcome_of(alloc, present, right)?;
            Ok(joined(*op, left, right))
        }
    }
}

/// Returns what an element has.
#[cycle(outcome)]
fn element_outcome(
    alloc: Global,
    present: &StateView<'_, '_, '_>,
    e: &Element,
) -> Result<Outcome, NoMemory>
    ensures { IfOk result (λ outcome. outcome
        ≡ value_of (element e.now.array (trees_in e.now.subs.items)) (present_state present.now)) }
{
    match outcomes_of(alloc, present, &e.subs)? {
        Ok(subs) => Ok(element_at(present, e.array, &subs)),
        Err(fault) => Ok(Err(fault)),
    }
}

/// Returns the values of expressions in their order, or the first fault.
#[cycle(outcome)]
fn outcomes_of(
    alloc: Global,
    present: &StateView<'_, '_, '_>,
    list: &Vec<Expr>,
) -> Result<Result<Vec<Value>, FaultKind>, NoMemory>
    ensures values { IfOk result (λ outcome. IfOk outcome (λ values.
        Ok values.items ≡ values_of (trees_in list.now.items) (present_state present.now))) }
    ensures fault { IfOk result (λ outcome. IfErr outcome (λ fault.
        Err fault ≡ values_of (trees_in list.now.items) (present_state present.now))) }
{
    let mut values = Vec::new(alloc);
    for e in list {
        match outcome_of(alloc, present, e)? {
            Ok(value) => values.push(value)?,
            Err(fault) => return Ok(Err(fault)),
        }
    }
    Ok(Ok(values))
}
