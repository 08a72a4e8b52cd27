//! Counts the operands that operations pop, push and keep on the operand stack.

ghost use Rattle.std.specs.Prelude.{◌≡◌, ◌≤◌};
ghost use Rattle.ick_code.specs.Counts.{popped_by, pushed_by, peak};

use crate::op::Op;

/// Returns the greatest number of operands on the stack while the operations are executed from an
/// empty stack.
pub fn most_operands(ops: &[Op]) -> usize
    ensures { result ≡ peak ops.now 0 }
{
    let mut count = 0usize;
    let mut most = 0usize;
    for op in ops {
        count = count.saturating_sub(popped(*op)) + pushed(*op);
        most = most.max(count);
    }
    most
}

/// Returns how many operands an operation pops.
fn popped(op: Op) -> usize
    ensures { result ≡ popped_by op }
{
    match op {
        Op::Constant(_) | Op::Load(_) | Op::Call(_) => 0,
        Op::Fetch(_, count) | Op::Resize(_, count) | Op::ReadAt(_, count) => count as usize,
        Op::StoreAt(_, count) => count as usize + 1,
        Op::And | Op::Or | Op::Xor | Op::Store(_) => 1,
        Op::Forget | Op::Resume | Op::Print => 1,
        Op::Mingle | Op::Select => 2,
        Op::Save(_) | Op::Restore(_) | Op::Hide(_) | Op::Show(_) => 0,
        Op::AbstainOne(_) | Op::ReinstateOne(_) | Op::AbstainKind(_) | Op::ReinstateKind(_) => 0,
        Op::ReadTo(_) | Op::PrintArray(_) | Op::ReadArray(_) => 0,
        Op::Stop | Op::Fail => 0,
    }
}

/// Returns how many operands an operation pushes.
fn pushed(op: Op) -> usize
    ensures count { result ≡ pushed_by op }
    ensures few { result ≤ 1 }
{
    match op {
        Op::Constant(_) | Op::Load(_) | Op::Fetch(_, _) => 1,
        Op::And | Op::Or | Op::Xor | Op::Mingle | Op::Select => 1,
        Op::Store(_) | Op::StoreAt(_, _) | Op::Resize(_, _) => 0,
        Op::Call(_) | Op::Forget | Op::Resume => 0,
        Op::Save(_) | Op::Restore(_) | Op::Hide(_) | Op::Show(_) => 0,
        Op::AbstainOne(_) | Op::ReinstateOne(_) | Op::AbstainKind(_) | Op::ReinstateKind(_) => 0,
        Op::Print | Op::ReadTo(_) | Op::ReadAt(_, _) => 0,
        Op::PrintArray(_) | Op::ReadArray(_) | Op::Stop | Op::Fail => 0,
    }
}
