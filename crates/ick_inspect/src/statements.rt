//! Statements as texts, with their lines and columns.

ghost use Rattle.std.specs.Prelude.{◌≡◌, ◌≤◌, length};
ghost use Rattle.ick_code.specs.Compiled.{code_program};
ghost use Rattle.ick_inspect.specs.Statements.{list_text, listed_text, position_text};
ghost use Rattle.ick_inspect.specs.Statements.{statement_text};
ghost use Rattle.ick_inspect.specs.Text.{Adds};
ghost use Rattle.ick_machine.specs.StateView.{present_program, present_state};

use crate::positions::LineColumn;
use crate::readers;
use crate::text::Text;
use ick_code::Code;
use ick_machine::StateView;

/// Appends a line and a column: `3:1`.
#[tactic(auto, unfolding(crate::specs::Statements::position_text))]
pub fn append_position(text: &mut Text, position: LineColumn)
    ensures { Adds text.old text.new (position_text position) }
{
    text.push_decimal(position.line as u64);
    text.push(b":");
    text.push_decimal(position.column as u64);
}

/// Appends statement `n`, from 1 to the number of statements, with its position: `5 3:1 "DO .1 <-
/// #1"`. There is a position for each statement. No end of line is appended.
#[tactic(auto, unfolding(crate::specs::Statements::statement_text))]
pub fn append_statement(text: &mut Text, code: &Code<'_>, positions: &[LineColumn], n: u32)
    requires first { 1 ≤ n }
    requires last { n ≤ length (code_program code.now) }
    requires positions { length positions.now ≡ length (code_program code.now) }
    ensures { Adds text.old text.new (statement_text (code_program code.now) positions.now n) }
{
    text.push_decimal(u64::from(n));
    text.push(b" ");
    append_position(text, positions[n as usize - 1]);
    text.push(b" ");
    text.push_quoted(code.text(n));
}

/// Appends a line of a listing.
#[tactic(auto, unfolding(crate::specs::Statements::listed_text))]
fn append_listed(text: &mut Text, code: &Code<'_>, positions: &[LineColumn], place: u32, n: u32)
    requires first { 1 ≤ n }
    requires last { n ≤ length (code_program code.now) }
    requires positions { length positions.now ≡ length (code_program code.now) }
    ensures { Adds text.old text.new
        (listed_text (code_program code.now) positions.now place n) }
{
    if n == place {
        text.push(b"> ");
    } else {
        text.push(b"  ");
    }
    append_statement(text, code, positions, n);
    text.push(b"\n");
}

/// Appends a line for each statement around the one that is met next: at most `around` before it,
/// itself, and at most `around` behind it. A line has the statement's number, position and text;
/// `> ` stands before the one that is met next, and two spaces before each other one. There is a
/// position for each statement.
pub fn append_list(
    text: &mut Text,
    present: &StateView<'_, '_, '_>,
    positions: &[LineColumn],
    around: u32,
)
    requires { length positions.now ≡ length (present_program present.now) }
    ensures { Adds text.old text.new (list_text (present_program present.now) positions.now
        (present_state present.now).place around) }
{
    let place = readers::place(present);
    let code = present.lowered.code;
    let first = place.saturating_sub(around).max(1);
    let last = place.saturating_add(around).min(code.count());
    for n in first..last + 1 {
        append_listed(text, code, positions, place, n);
    }
}
