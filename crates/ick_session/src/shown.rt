//! Where a run is, and how it has ended.

ghost use Rattle.std.specs.Prelude.{◌≡◌, length, true};
ghost use Rattle.ick_backtrack.specs.Asked.{finish_of};
ghost use Rattle.ick_inspect.specs.Text.{Adds};
ghost use Rattle.ick_machine.specs.StateView.{present_program, present_state};
ghost use Rattle.ick_machine.specs.Seen.{trailed_machine};
ghost use Rattle.ick_session.specs.Breakpoints.{has_statement, last_text, set_text};
ghost use Rattle.ick_session.specs.Shown.{asked_text, here_text, met_text, over_text, past_text};
ghost use Rattle.ick_session.specs.Shown.{place_text};
ghost use Rattle.ick_session.specs.Travel.{breakpoint_text, going_text, limit_text};

use ick_inspect::{LineColumn, StateView, Text, append_stack, append_statement, place};
use ick_machine::{Ask, Asks, End, Trailed};

/// Appends that no statement has a number.
fn append_past(out: &mut Text, n: u32)
    ensures { Adds out.old out.new (past_text n) }
{
    out.push_decimal(u64::from(n));
    out.push(b" past the last statement");
}

/// Appends the statement that has a number, with its position and its text, or that no statement
/// has the number. `positions` has one position for each statement.
#[tactic(auto, unfolding(ick_machine::specs::StateView::present_program))]
fn append_met(out: &mut Text, positions: &[LineColumn], present: &StateView<'_, '_, '_>, n: u32)
    requires { length positions.now ≡ length (present_program present.now) }
    ensures { Adds out.old out.new (met_text (present_program present.now) positions.now n) }
{
    if n < 1 {
        append_past(out, n);
        return;
    }
    if present.lowered.code.count() < n {
        append_past(out, n);
        return;
    }
    append_statement(out, present.lowered.code, positions, n);
}

/// Appends the line of a run: the number of steps that it has made, and the statement that is met
/// next, with its line, its column and its text.
pub fn append_place(
    out: &mut Text,
    positions: &[LineColumn],
    steps: usize,
    present: &StateView<'_, '_, '_>,
)
    requires { length positions.now ≡ length (present_program present.now) }
    ensures { Adds out.old out.new (place_text (present_program present.now) positions.now steps
        (present_state present.now)) }
{
    out.push_decimal(steps as u64);
    out.push(b" ");
    append_met(out, positions, present, place(present));
    out.push(b"\n");
}

/// Appends that a choice is asked.
fn append_asked(out: &mut Text, chance: u8)
    ensures { Adds out.old out.new (asked_text chance) }
{
    out.push(b"  asks %");
    out.push_decimal(u64::from(chance));
    out.push(b"\n");
}

/// Appends how a run has ended: by GIVE UP, or by a fault with its message, its statement and the
/// NEXT stack.
fn append_over(
    out: &mut Text,
    positions: &[LineColumn],
    end: End<'_>,
    present: &StateView<'_, '_, '_>,
)
    requires { length positions.now ≡ length (present_program present.now) }
    ensures { Adds out.old out.new (over_text (present_program present.now) positions.now
        (finish_of end.entry) (present_state present.now)) }
{
    match end {
        End::GiveUp => out.push(b"ended: GIVE UP\n"),
        End::Limit => {}
        End::Fault(fault) => {
            out.push(b"ended: ");
            out.push_message(&fault);
            out.push(b"  at ");
            append_met(out, positions, present, fault.statement);
            out.push(b"\n  ");
            append_stack(out, present);
        }
    }
}

/// Appends where a machine's run is: the number of steps that it has made, and the statement that
/// is met next, or how the run has ended. If a choice is asked, a line with its chance follows.
pub fn append_here(
    out: &mut Text,
    positions: &[LineColumn],
    steps: usize,
    machine: &Trailed<'_, '_>,
)
    requires { length positions.now ≡ length (trailed_machine machine.now).program }
    ensures { Adds out.old out.new (here_text (trailed_machine machine.now).program positions.now
        steps (trailed_machine machine.now).state) }
{
    let present = machine.present();
    match machine.asks() {
        Ask::Plain => append_place(out, positions, steps, &present),
        Ask::Choice(chance) => {
            append_place(out, positions, steps, &present);
            append_asked(out, chance);
        }
        Ask::Ended(end) => {
            out.push_decimal(steps as u64);
            out.push(b" ");
            append_over(out, positions, end, &present);
        }
    }
}

/// Appends that a run has come to a breakpoint, if it has.
pub fn append_breakpoint(there: bool, out: &mut Text)
    ensures { Adds out.old out.new (breakpoint_text there) }
{
    if there {
        out.push(b"  breakpoint\n");
    }
}

/// Appends that a run has come to its limit, if no further step may be made.
pub fn append_limit(left: u32, out: &mut Text)
    ensures { Adds out.old out.new (limit_text left) }
{
    if left == 0 {
        out.push(b"  limit reached\n");
    }
}

/// Appends that a run goes on, if it does.
pub fn append_going(goes: bool, out: &mut Text)
    ensures { Adds out.old out.new (going_text goes) }
{
    if goes {
        out.push(b"  goes on\n");
    }
}

/// Returns whether the program has a statement of this number.
#[tactic(auto, unfolding(ick_machine::specs::StateView::present_program))]
pub fn has_statement(present: &StateView<'_, '_, '_>, n: u32) -> bool
    ensures { result ≡ has_statement (present_program present.now) n }
{
    n > 0 && !(present.lowered.code.count() < n)
}

/// Appends that a statement has a breakpoint, with its position and its text.
#[tactic(auto, unfolding(ick_machine::specs::StateView::present_program))]
pub fn append_set(out: &mut Text, positions: &[LineColumn], present: &StateView<'_, '_, '_>, n: u32)
    requires there { has_statement (present_program present.now) n ≡ true }
    requires positions { length positions.now ≡ length (present_program present.now) }
    ensures { Adds out.old out.new (set_text (present_program present.now) positions.now n) }
{
    out.push(b"breakpoint at ");
    append_statement(out, present.lowered.code, positions, n);
    out.push(b"\n");
}

/// Returns the number of the last statement.
#[tactic(auto, unfolding(ick_machine::specs::StateView::present_program))]
pub fn last(present: &StateView<'_, '_, '_>) -> u32
    ensures { result ≡ length (present_program present.now) }
{
    present.lowered.code.count()
}

/// Appends the number of the last statement.
#[tactic(auto, unfolding(ick_machine::specs::StateView::present_program))]
pub fn append_last(out: &mut Text, present: &StateView<'_, '_, '_>)
    ensures { Adds out.old out.new (last_text (present_program present.now)) }
{
    out.push(b"the last statement is ");
    out.push_decimal(u64::from(present.lowered.code.count()));
    out.push(b"\n");
}
