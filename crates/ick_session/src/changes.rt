//! What a step has changed.

ghost use Rattle.std.specs.Prelude.{◌≡◌, ◌≤◌, ◌++◌, false, length, reverse};
ghost use Rattle.std.specs.List.{list_any};
ghost use Rattle.ick_code.specs.Compiled.{code_program, code_slots};
ghost use Rattle.ick_inspect.specs.Text.{Adds};
ghost use Rattle.ick_machine.specs.StateView.{present_program, present_state};
ghost use Rattle.ick_session.specs.Changes.{abstained_text, alike, bytes_text, change_text};
ghost use Rattle.ick_session.specs.Changes.{changes_text, had_at, moved_line, name_line};
ghost use Rattle.ick_session.specs.Changes.{names_text, newest_line, newly_line, newly_text};
ghost use Rattle.ick_session.specs.Changes.{piece_unless, printed_text, read_text};
ghost use Rattle.ick_session.specs.Changes.{returned_text};
ghost use Rattle.ick_session.specs.Targets.{changed_name, is_of_abstaining};
ghost use Rattle.ick_session.specs.Targets.{names_changed_by, ops_at};

use crate::targets::{changed_by, is_changed_by, may_abstain, ops_of};
use ick_code::{Code, Op};
use ick_inspect::{
    StateView, Text, append_stack, append_variable, dimensions, elements, input_left,
    is_abstained_from, is_ignored, number, output, return_addresses, stashed_arrays,
    stashed_numbers,
};
use ick_syntax::Name;

/// Returns whether a name shows the same in two states: its number, its dimensions and elements,
/// whether it is ignored, and how deep it is stashed.
fn is_same_at(name: Name, before: &StateView<'_, '_, '_>, after: &StateView<'_, '_, '_>) -> bool
    ensures { result ≡ alike (had_at (present_state before.now) name)
        (had_at (present_state after.now) name) }
{
    number(before, name) == number(after, name)
        && is_ignored(before, name) == is_ignored(after, name)
        && stashed_numbers(before, name).len() == stashed_numbers(after, name).len()
        && stashed_arrays(before, name).len() == stashed_arrays(after, name).len()
        && dimensions(before, name) == dimensions(after, name)
        && elements(before, name) == elements(after, name)
}

/// Appends a line for a statement, if the second state abstains from it and the first doesn't.
fn append_newly(
    out: &mut Text,
    word: &[u8],
    statement: u32,
    before: &StateView<'_, '_, '_>,
    after: &StateView<'_, '_, '_>,
)
    requires before { statement ≤ length (present_program before.now) }
    requires after { statement ≤ length (present_program after.now) }
    ensures { Adds out.old out.new (newly_line word.now (present_state before.now)
        (present_state after.now) statement) }
{
    if is_abstained_from(after, statement) && !is_abstained_from(before, statement) {
        out.push(word);
        out.push_decimal(u64::from(statement));
        out.push(b"\n");
    }
}

/// Appends a line for each statement that the second state abstains from and the first doesn't.
fn append_all_newly(
    out: &mut Text,
    word: &[u8],
    count: u32,
    before: &StateView<'_, '_, '_>,
    after: &StateView<'_, '_, '_>,
)
    requires before { count ≤ length (present_program before.now) }
    requires after { count ≤ length (present_program after.now) }
    ensures { Adds out.old out.new (newly_text word.now (present_state before.now)
        (present_state after.now) count) }
{
    for index in 0..count {
        append_newly(out, word, index + 1, before, after);
    }
}

/// Appends a line for each statement that only one of two states abstains from. The operations are
/// those of the step between the states.
fn append_abstained(
    out: &mut Text,
    code: &Code<'_>,
    ops: &[Op],
    before: &StateView<'_, '_, '_>,
    after: &StateView<'_, '_, '_>,
)
    requires before { code_program code.now ≡ present_program before.now }
    requires after { code_program code.now ≡ present_program after.now }
    requires still { list_any is_of_abstaining ops.now ≡ false →
        (present_state after.now).abstained ≡ (present_state before.now).abstained }
    ensures { Adds out.old out.new (abstained_text (length (code_program code.now))
        (present_state before.now) (present_state after.now)) }
{
    if may_abstain(ops) {
        append_all_newly(out, b"  abstains from ", code.count(), before, after);
        append_all_newly(out, b"  reinstates ", code.count(), after, before);
    }
}

/// Appends the line of a name, if it shows something else than before.
fn append_name(
    out: &mut Text,
    name: Name,
    before: &StateView<'_, '_, '_>,
    after: &StateView<'_, '_, '_>,
)
    ensures { Adds out.old out.new (name_line (present_state before.now) (present_state after.now)
        name) }
{
    if !is_same_at(name, before, after) {
        out.push(b"  ");
        append_variable(out, after, name);
        out.push(b"\n");
    }
}

/// Appends the line of the name that an operation has changed, if it has changed one. It appends
/// nothing if an earlier operation of the statement may change the same name.
fn append_changed(
    out: &mut Text,
    code: &Code<'_>,
    earlier: &[Op],
    op: Op,
    before: &StateView<'_, '_, '_>,
    after: &StateView<'_, '_, '_>,
)
    ensures { let slots = code_slots code.now in Adds out.old out.new (piece_unless
        (name_line (present_state before.now) (present_state after.now))
        (names_changed_by slots earlier.now) (changed_name slots op)) }
{
    match changed_by(code, op) {
        Some(name) => {
            if !is_changed_by(code, earlier, name) {
                append_name(out, name, before, after);
            }
        }
        None => {}
    }
}

/// Appends a word and, behind it, bytes in quotes. If there are no bytes, it appends nothing.
fn append_bytes(out: &mut Text, word: &[u8], bytes: &[u8])
    ensures { Adds out.old out.new (bytes_text word.now bytes.now) }
{
    if !bytes.is_empty() {
        out.push(word);
        out.push_quoted(bytes);
        out.push(b"\n");
    }
}

/// Appends the output behind its first `before` bytes.
pub fn append_printed(out: &mut Text, before: usize, after: &StateView<'_, '_, '_>)
    ensures { Adds out.old out.new (printed_text before (present_state after.now)) }
{
    let whole = output(after);
    append_bytes(out, b"  prints ", &whole[before.min(whole.len())..]);
}

/// Appends the input that was read between two states.
fn append_read(out: &mut Text, before: &StateView<'_, '_, '_>, after: &StateView<'_, '_, '_>)
    ensures { Adds out.old out.new (read_text (present_state before.now)
        (present_state after.now)) }
{
    let left = input_left(before);
    let size = left.len().saturating_sub(input_left(after).len());
    append_bytes(out, b"  reads ", &left[..size]);
}

/// Appends a line for each name that the operations of a statement have changed between two states.
fn append_names(
    out: &mut Text,
    code: &Code<'_>,
    ops: &[Op],
    before: &StateView<'_, '_, '_>,
    after: &StateView<'_, '_, '_>,
)
    ensures { Adds out.old out.new (names_text (code_slots code.now) ops.now
        (present_state before.now) (present_state after.now)) }
{
    for at in 0..ops.len() {
        append_changed(out, code, &ops[..at], ops[at], before, after);
    }
}

/// Appends a word and, behind it, the `count` newest return addresses, the newest first.
fn append_newest(out: &mut Text, word: &[u8], addresses: &[u32], count: usize)
    requires addresses { count ≤ length addresses.now }
    ensures { Adds out.old out.new (newest_line word.now (reverse addresses.now) count) }
{
    out.push(word);
    for back in 0..count {
        out.push(b" ");
        out.push_decimal(u64::from(addresses[addresses.len() - 1 - back]));
    }
    out.push(b"\n");
}

/// Appends the return addresses that were pushed, or those that were removed.
fn append_moved(out: &mut Text, before: &[u32], after: &[u32])
    ensures { Adds out.old out.new (moved_line (reverse before.now) (reverse after.now)) }
{
    if before.len() < after.len() {
        append_newest(out, b"  pushes", after, after.len() - before.len());
    } else {
        append_newest(out, b"  removes", before, before.len() - after.len());
    }
}

/// If the return addresses have changed between two states, appends those that were pushed or
/// removed, and the NEXT stack after the change.
fn append_returned(out: &mut Text, before: &StateView<'_, '_, '_>, after: &StateView<'_, '_, '_>)
    ensures { Adds out.old out.new (returned_text (present_state before.now)
        (present_state after.now)) }
{
    let old = return_addresses(before);
    let new = return_addresses(after);
    if old != new {
        append_moved(out, old, new);
        out.push(b"  ");
        append_stack(out, after);
    }
}

/// Appends which statement changed a name, if one did.
pub fn append_change(out: &mut Text, changed: bool, statement: u32)
    ensures { Adds out.old out.new (change_text changed statement) }
{
    if changed {
        out.push(b", changed by statement ");
        out.push_decimal(u64::from(statement));
    }
}

/// Appends the lines of a step from one state to another, at a statement. They show the input that
/// the step read, the names that it changed and the statements that it abstained from or
/// reinstated, each of them once. Then come the return addresses that it pushed or removed, the
/// NEXT stack after that, and the output. `code` is the code of the program. Only a statement of
/// abstaining may change which statements are abstained from.
pub fn append_changes(
    out: &mut Text,
    code: &Code<'_>,
    statement: u32,
    before: &StateView<'_, '_, '_>,
    after: &StateView<'_, '_, '_>,
)
    requires before { code_program code.now ≡ present_program before.now }
    requires after { code_program code.now ≡ present_program after.now }
    requires still { list_any is_of_abstaining (ops_at code.now statement) ≡ false →
        (present_state after.now).abstained ≡ (present_state before.now).abstained }
    ensures { Adds out.old out.new (changes_text code.now statement
        (present_state before.now) (present_state after.now)) }
{
    let ops = ops_of(code, statement);
    append_read(out, before, after);
    append_names(out, code, ops, before, after);
    append_abstained(out, code, ops, before, after);
    append_returned(out, before, after);
    append_printed(out, output(before).len(), after);
}
