//! Makes steps at which nothing is asked, and notes them.

ghost use Rattle.std.specs.Prelude.{◌≡◌, ℕ, ◌+◌, ◌*◌, ◌<◌, ◌≤◌, ◌^◌, length, IfOk, OnErr};
ghost use Rattle.ick_backtrack.specs.Steps.{IsPlain, Rests};
ghost use Rattle.ick_step.specs.Seen.{IsKept, seen_at, later};

use crate::marks::{BETWEEN_MARKS, mark_if_due};
use ick_backtrack::Asks;
use ick_bits::NoMemory;

/// Makes steps while nothing is asked and the run hasn't ended, at most `most`, and notes them. No
/// mark may be due before the last of them. Returns their number. After `NoMemory` fewer steps were
/// made, each of them whole.
fn run_noted<'c, M: Asks<'c>>(
    machine: &mut M,
    answers: &mut Vec<Option<bool>>,
    most: u32,
) -> Result<u32, NoMemory>
    requires kept { IsKept (M.seen machine.old) answers.old.items }
    requires few { length answers.old.items + most ≤ 1000 * length (M.seen machine.old).marks }
    requires some { 0 < length (M.seen machine.old).marks }
    requires room { (M.seen machine.old).work + most < 2 ^ 64 }
    ensures kept { IsKept (M.seen machine.new) answers.new.items }
    ensures ok { IfOk result (λ k. seen_at (M.seen machine.new) answers.new.items
        ≡ later k (seen_at (M.seen machine.old) answers.old.items)) }
    ensures err { OnErr result ((k : ℕ) × (k ≤ most)
        × (seen_at (M.seen machine.new) answers.new.items
        ≡ later k (seen_at (M.seen machine.old) answers.old.items))) }
    ensures within { IfOk result (λ k. k ≤ most) }
    ensures rests { let new = M.seen machine.new in
        IfOk result (λ k. Rests IsPlain new.program most k new.state) }
{
    let steps = answers.len();
    answers.resize(steps + most as usize, None)?;
    let before = machine.work();
    let ran = machine.run(most);
    let made = machine.work() - before;
    answers.truncate(steps + made as usize);
    ran
}

/// Makes steps while nothing is asked and the run hasn't ended: at most as many as the limit, and
/// none behind the step that the next mark is before. Returns their number. After `NoMemory` at
/// most as many steps were made, each of them whole.
fn stretch<'c, M: Asks<'c>>(
    machine: &mut M,
    answers: &mut Vec<Option<bool>>,
    limit: u32,
) -> Result<u32, NoMemory>
    requires kept { IsKept (M.seen machine.old) answers.old.items }
    requires room { (M.seen machine.old).work + limit < 2 ^ 64 }
    ensures kept { IsKept (M.seen machine.new) answers.new.items }
    ensures ok { IfOk result (λ k. seen_at (M.seen machine.new) answers.new.items
        ≡ later k (seen_at (M.seen machine.old) answers.old.items)) }
    ensures err { OnErr result ((k : ℕ) × (k ≤ limit)
        × (seen_at (M.seen machine.new) answers.new.items
        ≡ later k (seen_at (M.seen machine.old) answers.old.items))) }
    ensures within { IfOk result (λ k. k ≤ limit) }
    ensures rests { IfOk result (λ k. k ≡ 0 → 0 < limit →
        ¬ IsPlain (M.seen machine.new).program (M.seen machine.new).state) }
{
    let steps = answers.len();
    mark_if_due(machine, steps)?;
    let room = BETWEEN_MARKS * machine.marks() - steps;
    run_noted(machine, answers, limit.min(room as u32))
}

/// Makes steps while nothing is asked and the run hasn't ended, at most as many as the limit.
/// Returns their number. After `NoMemory` at most as many steps were made, each of them whole.
pub(crate) fn go_on<'c, M: Asks<'c>>(
    machine: &mut M,
    answers: &mut Vec<Option<bool>>,
    limit: u32,
) -> Result<u32, NoMemory>
    requires kept { IsKept (M.seen machine.old) answers.old.items }
    requires room { (M.seen machine.old).work + limit < 2 ^ 64 }
    ensures kept { IsKept (M.seen machine.new) answers.new.items }
    ensures ok { IfOk result (λ k. seen_at (M.seen machine.new) answers.new.items
        ≡ later k (seen_at (M.seen machine.old) answers.old.items)) }
    ensures err { OnErr result ((k : ℕ) × (k ≤ limit)
        × (seen_at (M.seen machine.new) answers.new.items
        ≡ later k (seen_at (M.seen machine.old) answers.old.items))) }
    ensures within { IfOk result (λ k. k ≤ limit) }
    ensures rests { let new = M.seen machine.new in
        IfOk result (λ k. Rests IsPlain new.program limit k new.state) }
{
    let mut made = 0;
    'steps: while made < limit {
        let more = stretch(machine, answers, limit - made)?;
        if more == 0 {
            return Ok(made);
        }
        made += more;
    }
    Ok(made)
}
