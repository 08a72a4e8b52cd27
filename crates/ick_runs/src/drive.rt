//! Drives a machine along the run whose choices a chooser gives.

ghost use Rattle.std.specs.Prelude.{◌≡◌, ◌+◌, ◌<◌, ◌^◌, [], IfOk, IfSome, IfNone};
ghost use Rattle.ick_backtrack.specs.Asked.{finish_of};
ghost use Rattle.ick_explorer.specs.Paths.{RunsTo};
ghost use Rattle.ick_explorer.specs.Walks.{EndsHere};
ghost use Rattle.ick_runs.specs.Chosen.{chosen_of, AreGiven, IsWithout};

use crate::chooser::{Chooser, Picker};
use ick_bits::NoMemory;
use ick_machine::{Ask, Asks, End};

/// Runs a machine from its state for at most `limit` steps, and lists the choices that the run used
/// in `choices`, which must be empty. Returns the number of steps and the end of the run. There is
/// no end if the run asks a choice that the chooser doesn't have.
///
/// The machine's count of work must have `limit` left. The answer is `NoMemory` if the machine or
/// the list of choices can't grow.
pub(crate) fn drive<'c, M: Asks<'c>>(
    machine: &mut M,
    limit: u32,
    chooser: Chooser<'_>,
    choices: &mut Vec<bool>,
) -> Result<(u32, Option<End<'c>>), NoMemory>
    requires room { (M.seen machine.old).work + limit < 2 ^ 64 }
    requires unused { choices.old.items ≡ [] }
    ensures runs { IfOk result (λ r. RunsTo limit
        (M.seen machine.old) choices.new.items (M.seen machine.new) r.0) }
    ensures given { IfOk result (λ _. AreGiven (M.seen machine.old).program
        (M.seen machine.old).state limit (chosen_of chooser.entry) choices.new.items) }
    ensures end { IfOk result (λ r. IfSome r.1 (λ end.
        EndsHere limit (M.seen machine.new) r.0 (finish_of end))) }
    ensures without { IfOk result (λ r. IfNone r.1 (IsWithout
        (chosen_of chooser.entry) limit choices.new.items (M.seen machine.new) r.0)) }
{
    let mut picker = Picker::new(chooser);
    let mut steps = 0;
    'on: loop {
        let asked = machine.asks();
        if let Ask::Ended(end) = asked {
            return Ok((steps, Some(end)));
        }
        if steps == limit {
            return Ok((steps, Some(End::Limit)));
        }
        if let Ask::Choice(chance) = asked {
            let Some(done) = picker.pick(choices.len(), chance) else {
                return Ok((steps, None));
            };
            choices.push(done)?;
            machine.step(done)?;
            steps += 1;
            continue;
        }
        let made = machine.run(limit - steps)?;
        steps += made;
    }
}
