//! The lines of a traced step.

ghost use Rattle.std.specs.Prelude.{◌≡◌, ◌+◌, ◌-◌, ◌<◌, ◌^◌, OnOk};
ghost use Rattle.ick_code.specs.Compiled.{code_program};
ghost use Rattle.ick_code.specs.meaning.Move.{advance, ask};
ghost use Rattle.ick_backtrack.specs.Asked.{IsGoing};
ghost use Rattle.ick_inspect.specs.Text.{Adds};
ghost use Rattle.ick_machine.specs.Seen.{trailed_machine};
ghost use Rattle.ick_session.specs.Changes.{step_text};
ghost use Rattle.ick_session.specs.Shown.{answered_text};

use crate::changes::append_changes;
use crate::passed::append_passed;
use ick_bits::NoMemory;
use ick_code::Code;
use ick_inspect::{Text, place};
use ick_machine::{Backtrack, Trailed};

/// Two machines in one state. One makes each step before the other, so that the states before and
/// after the step are both there.
#[derive(Drop)]
pub struct Pair<'c, 'a> {
    pub before: Trailed<'c, 'a>,
    pub after: Trailed<'c, 'a>,
}

/// Appends which choice was answered at a chance: 1 if the statement is done, or else 0. The text
/// refuses nothing but a growth.
pub fn append_answered(out: &mut Text, chance: u8, done: bool)
    ensures { Adds out.old out.new (answered_text chance done) }
{
    out.push(b"  asks %");
    out.push_decimal(u64::from(chance));
    if done {
        out.push(b": 1\n");
    } else {
        out.push(b": 0\n");
    }
}

/// Appends the lines of a step, from the states before it and after it. `code` is the code of the
/// machines' program.
fn append_step(
    out: &mut Text,
    code: &Code<'_>,
    before: &Trailed<'_, '_>,
    after: &Trailed<'_, '_>,
    done: bool,
)
    requires code { code_program code.now ≡ (trailed_machine before.now).program }
    requires program { (trailed_machine after.now).program
        ≡ (trailed_machine before.now).program }
    requires state { let seen = trailed_machine before.now in
        (trailed_machine after.now).state ≡ advance seen.program seen.state done }
    ensures { let seen = trailed_machine before.now in
        Adds out.old out.new (step_text seen.program code.now seen.state done) }
{
    let old = before.present();
    let new = after.present();
    // By what its operations do, only a statement of abstaining changes abstentions.
    code.law();
    append_passed(out, &old, done);
    append_changes(out, code, place(&old), &old, &new);
}

/// Makes a step with both machines, and appends its lines: whether its statement is passed over,
/// and what the step changed, each changed name once and in the order of the statement. Both
/// machines must be in the same state, and the run must not have ended. `code` is the code that
/// they run. Their count of work must have room for the step. `NoMemory` is the only refusal.
pub fn trace_step(
    machines: &mut Pair<'_, '_>,
    code: &Code<'_>,
    out: &mut Text,
    done: bool,
) -> Result<(), NoMemory>
    requires same { trailed_machine machines.old.after ≡ trailed_machine machines.old.before }
    requires code { code_program code.now ≡ (trailed_machine machines.old.before).program }
    requires going { IsGoing (ask (trailed_machine machines.old.before).program
        (trailed_machine machines.old.before).state) }
    requires room { (trailed_machine machines.old.before).work < 2 ^ 64 - 1 }
    ensures same { OnOk result (trailed_machine machines.new.after
        ≡ trailed_machine machines.new.before) }
    ensures step { let seen = trailed_machine machines.old.before in OnOk result (
        trailed_machine machines.new.before ≡ record seen {
          state = advance seen.program seen.state done;
          work = seen.work + 1;
        }) }
    ensures shows { let seen = trailed_machine machines.old.before in OnOk result (
        Adds out.old out.new (step_text seen.program code.now seen.state done)) }
{
    machines.after.step(done)?;
    append_step(out, code, &machines.before, &machines.after, done);
    machines.before.step(done)
}
