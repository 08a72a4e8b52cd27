//! Goes back by marks, and repeats steps.

ghost use Rattle.std.specs.Prelude.{◌≡◌, ◌+◌, ◌<◌, ◌≤◌, ◌^◌, ℕ, take, length, OnOk, OnErr};
ghost use Rattle.ick_step.specs.History.{IsHistory};
ghost use Rattle.ick_step.specs.Seen.{IsKept, start_of};

use crate::marks::{BETWEEN_MARKS, make_step};
use ick_backtrack::Backtrack;
use ick_bits::NoMemory;

/// Goes back mark by mark, until at most `target` of the steps are left that the machine has made.
/// Returns their number. This call takes no memory.
fn rewind<M: Backtrack>(machine: &mut M, answers: &[Option<bool>], target: usize) -> usize
    requires kept { IsKept (M.seen machine.old) answers.now }
    requires within { target ≤ length answers.now }
    ensures kept { IsKept (M.seen machine.new) (take result answers.now) }
    ensures program { (M.seen machine.new).program ≡ (M.seen machine.old).program }
    ensures start { start_of (M.seen machine.new) ≡ start_of (M.seen machine.old) }
    ensures work { (M.seen machine.new).work ≡ (M.seen machine.old).work }
    ensures within { result ≤ target }
    ensures near { target ≤ result + 1000 }
{
    let mut steps = answers.len();
    'down: while target < steps {
        machine.back();
        steps = BETWEEN_MARKS * machine.marks();
    }
    steps
}

/// Makes the steps behind the first `from` ones again, by their answers. Returns the number of
/// steps that the machine has made then: all, or fewer if memory ran out.
fn replay<M: Backtrack>(machine: &mut M, answers: &[Option<bool>], from: usize) -> usize
    requires kept { IsKept (M.seen machine.old) (take from answers.now) }
    requires history { IsHistory (M.seen machine.old).program (start_of (M.seen machine.old))
        answers.now }
    requires from { from ≤ length answers.now }
    requires room { (M.seen machine.old).work + length answers.now < 2 ^ 64 + from }
    ensures kept { IsKept (M.seen machine.new) (take result answers.now) }
    ensures program { (M.seen machine.new).program ≡ (M.seen machine.old).program }
    ensures start { start_of (M.seen machine.new) ≡ start_of (M.seen machine.old) }
    ensures work { (M.seen machine.new).work + from ≡ (M.seen machine.old).work + result }
    ensures within { result ≤ length answers.now }
    ensures rises { from ≤ result }
{
    let mut steps = from;
    'again: while steps < answers.len() {
        if make_step(machine, steps, answers[steps]).is_err() {
            return steps;
        }
        steps += 1;
    }
    steps
}

/// Sets the machine back to the first `target` of the steps that it has made, and keeps their
/// answers alone. At most 1,000 steps are made again. After `NoMemory` fewer steps are left.
pub(crate) fn go_back<M: Backtrack>(
    machine: &mut M,
    answers: &mut Vec<Option<bool>>,
    target: usize,
) -> Result<(), NoMemory>
    requires kept { IsKept (M.seen machine.old) answers.old.items }
    requires within { target ≤ length answers.old.items }
    requires room { (M.seen machine.old).work + 1000 < 2 ^ 64 }
    ensures kept { IsKept (M.seen machine.new) answers.new.items }
    ensures program { (M.seen machine.new).program ≡ (M.seen machine.old).program }
    ensures start { start_of (M.seen machine.new) ≡ start_of (M.seen machine.old) }
    ensures ok { OnOk result (answers.new.items ≡ take target answers.old.items) }
    ensures err { OnErr result ((n : ℕ) × (n < target)
        × (answers.new.items ≡ take n answers.old.items)) }
    ensures rises { (M.seen machine.old).work ≤ (M.seen machine.new).work }
    ensures few { (M.seen machine.new).work ≤ (M.seen machine.old).work + 1000 }
{
    let from = rewind(machine, answers, target);
    answers.truncate(target);
    let reached = replay(machine, answers, from);
    answers.truncate(reached);
    if reached < target {
        return Err(NoMemory);
    }
    Ok(())
}
