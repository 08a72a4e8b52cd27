//! The NEXT stack and the whole state as texts.

ghost use Rattle.std.specs.Prelude.{◌≡◌, reverse};
ghost use Rattle.ick_code.specs.Names.{slots_of};
ghost use Rattle.ick_inspect.specs.Summary.{abstained_in, abstained_text, counts_text, end_text};
ghost use Rattle.ick_inspect.specs.Summary.{stack_text};
ghost use Rattle.ick_inspect.specs.Summary.{state_text, statements_text, variables_text};
ghost use Rattle.ick_inspect.specs.Text.{Adds};
ghost use Rattle.ick_machine.specs.StateView.{present_program, present_state};

use crate::names::append_variable;
use crate::readers;
use crate::text::Text;
use ick_backtrack::End;
use ick_machine::{StateView, end_of};

/// Appends the return addresses, the newest first.
fn append_returns(text: &mut Text, returns: &[u32])
    ensures { Adds text.old text.new (statements_text (reverse returns.now)) }
{
    if returns.is_empty() {
        text.push(b" none");
        return;
    }
    for back in 0..returns.len() {
        text.push(b" ");
        text.push_decimal(u64::from(returns[returns.len() - 1 - back]));
    }
}

/// Appends the NEXT stack: the return addresses, the newest first, which are numbers of statements.
/// The line is `NEXT stack: 5 2`, or `NEXT stack: none`.
#[tactic(auto, unfolding(crate::specs::Summary::stack_text))]
pub fn append_stack(text: &mut Text, present: &StateView<'_, '_, '_>)
    ensures { Adds text.old text.new (stack_text (present_state present.now)) }
{
    text.push(b"NEXT stack:");
    append_returns(text, readers::return_addresses(present));
    text.push(b"\n");
}

/// Appends a line for each variable.
fn append_scalars(text: &mut Text, present: &StateView<'_, '_, '_>)
    ensures { Adds text.old text.new (variables_text
        (slots_of (present_program present.now)).scalars (present_state present.now)) }
{
    let code = present.lowered.code;
    // The line of a slot needs that the slots of the code are those of its program.
    code.law();
    for slot in 0..code.scalars() {
        append_variable(text, present, code.scalar(slot));
        text.push(b"\n");
    }
}

/// Appends a line for each array.
fn append_arrays(text: &mut Text, present: &StateView<'_, '_, '_>)
    ensures { Adds text.old text.new (variables_text
        (slots_of (present_program present.now)).arrays (present_state present.now)) }
{
    let code = present.lowered.code;
    // The line of a slot needs that the slots of the code are those of its program.
    code.law();
    for slot in 0..code.arrays() {
        append_variable(text, present, code.array(slot));
        text.push(b"\n");
    }
}

/// Appends the numbers of the statements abstained from.
fn append_numbers(text: &mut Text, present: &StateView<'_, '_, '_>)
    ensures { Adds text.old text.new (statements_text
        (abstained_in (present_program present.now) (present_state present.now))) }
{
    let mut none = true;
    for index in 0..present.lowered.code.count() {
        if readers::is_abstained_from(present, index + 1) {
            text.push(b" ");
            text.push_decimal(u64::from(index + 1));
            none = false;
        }
    }
    if none {
        text.push(b" none");
    }
}

/// Appends the statements abstained from.
#[tactic(auto, unfolding(crate::specs::Summary::abstained_text))]
fn append_abstained(text: &mut Text, present: &StateView<'_, '_, '_>)
    ensures { Adds text.old text.new (abstained_text (present_program present.now)
        (present_state present.now)) }
{
    text.push(b"abstained from:");
    append_numbers(text, present);
    text.push(b"\n");
}

/// Appends how much input is left, and how much output there is.
#[tactic(auto, unfolding(crate::specs::Summary::counts_text))]
fn append_counts(text: &mut Text, present: &StateView<'_, '_, '_>)
    ensures { Adds text.old text.new (counts_text (present_state present.now)) }
{
    text.push(b"input left: ");
    text.push_decimal(readers::input_left(present).len() as u64);
    text.push(b"\noutput: ");
    text.push_decimal(readers::output(present).len() as u64);
    text.push(b"\n");
}

/// Appends how the run ended, or nothing before its end.
fn append_end_line(text: &mut Text, present: &StateView<'_, '_, '_>)
    ensures { Adds text.old text.new (end_text (present_state present.now).end) }
{
    match present.end {
        None => {}
        Some(ended) => match end_of(present.lowered.code, present.input, ended) {
            End::GiveUp => text.push(b"ended: GIVE UP\n"),
            End::Fault(fault) => {
                text.push(b"ended: ");
                text.push_message(&fault);
            }
            End::Limit => {}
        },
    }
}

/// Appends the whole state, in lines: the statement that is met next, the NEXT stack, each variable
/// and each array, the statements abstained from, how many bytes of input are left, how many bytes
/// of output there are, and how the run ended, if it has.
#[tactic(auto, unfolding(crate::specs::Summary::state_text))]
pub fn append_state(text: &mut Text, present: &StateView<'_, '_, '_>)
    ensures { Adds text.old text.new
        (state_text (present_program present.now) (present_state present.now)) }
{
    text.push(b"next statement: ");
    text.push_decimal(u64::from(readers::place(present)));
    text.push(b" of ");
    text.push_decimal(u64::from(present.lowered.code.count()));
    text.push(b"\n");
    append_stack(text, present);
    append_scalars(text, present);
    append_arrays(text, present);
    append_abstained(text, present);
    append_counts(text, present);
    append_end_line(text, present);
}
