//! Marks the state of a machine before each thousandth step.

ghost use Rattle.std.specs.Prelude.{◌≡◌, ◌+◌, ◌-◌, ◌*◌, ◌<◌, ◌≤◌, ◌^◌, ◌∷◌, ◌++◌, []};
ghost use Rattle.std.specs.Prelude.{Bool, List, Option, length, OnOk, OnErr};
ghost use Rattle.ick_code.specs.meaning.Move.{ask};
ghost use Rattle.ick_step.specs.History.{done_by, Answers};
ghost use Rattle.ick_step.specs.Seen.{IsKept, seen_at, with_answer};

use ick_backtrack::Backtrack;
use ick_bits::NoMemory;

/// The number of steps between two marks. So going back repeats fewer than 1,000 steps, and a run
/// of a million steps has a thousand marks.
pub const BETWEEN_MARKS: usize = 1000;

/// Marks the state of a machine that has made this number of steps, if the number is that of its
/// marks times 1,000. After `NoMemory` nothing has changed.
pub(crate) fn mark_if_due<M: Backtrack>(machine: &mut M, steps: usize) -> Result<(), NoMemory>
    requires few { steps ≤ 1000 * length (M.seen machine.old).marks }
    ensures kept { (answers : List (Option Bool)) → length answers ≡ steps →
        IsKept (M.seen machine.old) answers → IsKept (M.seen machine.new) answers }
    ensures seen { (answers : List (Option Bool)) →
        seen_at (M.seen machine.new) answers ≡ seen_at (M.seen machine.old) answers }
    ensures state { (M.seen machine.new).state ≡ (M.seen machine.old).state }
    ensures few { steps ≤ 1000 * length (M.seen machine.new).marks }
    ensures room { OnOk result (steps < 1000 * length (M.seen machine.new).marks) }
{
    if steps / BETWEEN_MARKS >= machine.marks() {
        machine.mark()?;
    }
    Ok(())
}

/// Returns whether a step with this answer does its statement, if that is asked.
fn is_done(answer: Option<bool>) -> bool
    ensures { result ≡ done_by answer }
{
    match answer {
        Some(done) => done,
        None => false,
    }
}

/// Makes the step that comes after this number of steps, by its answer. Marks the state before it,
/// if a mark is due. After `NoMemory` the state is unchanged.
pub(crate) fn make_step<M: Backtrack>(
    machine: &mut M,
    steps: usize,
    answer: Option<bool>,
) -> Result<(), NoMemory>
    requires few { steps ≤ 1000 * length (M.seen machine.old).marks }
    requires answered { Answers (ask (M.seen machine.old).program (M.seen machine.old).state)
        answer }
    requires room { (M.seen machine.old).work < 2 ^ 64 - 1 }
    ensures ok { OnOk result ((answers : List (Option Bool)) → length answers ≡ steps →
        IsKept (M.seen machine.old) answers →
        IsKept (M.seen machine.new) (answers ++ answer ∷ [])
        × (seen_at (M.seen machine.new) (answers ++ answer ∷ [])
        ≡ with_answer answer (seen_at (M.seen machine.old) answers))) }
    ensures err { OnErr result ((answers : List (Option Bool)) → length answers ≡ steps →
        IsKept (M.seen machine.old) answers →
        IsKept (M.seen machine.new) answers
        × (seen_at (M.seen machine.new) answers ≡ seen_at (M.seen machine.old) answers)) }
{
    mark_if_due(machine, steps)?;
    machine.step(is_done(answer))
}
