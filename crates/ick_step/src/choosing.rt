//! Makes a step at which a choice is asked, and lists the choices.

ghost use Rattle.std.specs.Prelude.{◌≡◌, ◌-◌, ◌<◌, ◌^◌, ◌∷◌, ◌++◌, [], true, false};
ghost use Rattle.std.specs.Prelude.{Some, IfOk, OnOk, OnErr};
ghost use Rattle.ick_code.specs.meaning.Move.{ask};
ghost use Rattle.ick_step.specs.History.{choices_in, asks_choice};
ghost use Rattle.ick_step.specs.Seen.{IsKept, seen_at, with_answer};

use crate::marks::make_step;
use ick_backtrack::{Ask, Asks};
use ick_bits::NoMemory;
use std::alloc::Global;

/// Makes one step at which a choice is asked, and notes the answer. Returns whether a choice was
/// asked. If none was, or if memory ran out, nothing has changed.
pub(crate) fn choose<'c, M: Asks<'c>>(
    machine: &mut M,
    answers: &mut Vec<Option<bool>>,
    done: bool,
) -> Result<bool, NoMemory>
    requires kept { IsKept (M.seen machine.old) answers.old.items }
    requires room { (M.seen machine.old).work < 2 ^ 64 - 1 }
    ensures kept { IsKept (M.seen machine.new) answers.new.items }
    ensures err { OnErr result (seen_at (M.seen machine.new) answers.new.items
        ≡ seen_at (M.seen machine.old) answers.old.items) }
    ensures chosen { IfOk result (λ chosen. chosen ≡ true →
        seen_at (M.seen machine.new) answers.new.items
        ≡ with_answer (Some done) (seen_at (M.seen machine.old) answers.old.items)) }
    ensures not_asked { IfOk result (λ chosen. chosen ≡ false →
        seen_at (M.seen machine.new) answers.new.items
        ≡ seen_at (M.seen machine.old) answers.old.items) }
    ensures asked { IfOk result (λ chosen. chosen
        ≡ asks_choice (ask (M.seen machine.old).program (M.seen machine.old).state)) }
{
    let Ask::Choice(_) = machine.asks() else {
        return Ok(false);
    };
    answers.reserve(1)?;
    let steps = answers.len();
    make_step(machine, steps, Some(done))?;
    answers.push_reserved(Some(done));
    Ok(true)
}

/// Appends the choice of an answer, if the answer is one.
fn push_choice(choices: &mut Vec<bool>, answer: Option<bool>) -> Result<(), NoMemory>
    ensures { OnOk result (choices.new.items ≡ choices.old.items ++ choices_in (answer ∷ [])) }
{
    match answer {
        Some(choice) => {
            choices.push(choice)?;
            Ok(())
        }
        None => Ok(()),
    }
}

/// Returns the choices among answers.
pub(crate) fn collect_choices(
    alloc: Global,
    answers: &[Option<bool>],
) -> Result<Vec<bool>, NoMemory>
    ensures { IfOk result (λ choices. choices.items ≡ choices_in answers.now) }
{
    let mut choices = Vec::new(alloc);
    for answer in answers {
        push_choice(&mut choices, *answer)?;
    }
    Ok(choices)
}
