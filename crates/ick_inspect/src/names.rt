//! Variables and arrays as texts.

ghost use Rattle.std.specs.Prelude.{◌≡◌, length};
ghost use Rattle.ick_code.specs.meaning.State.{State};
ghost use Rattle.ick_inspect.specs.Names.{array_text, dimensions_text, marks_text, name_text};
ghost use Rattle.ick_inspect.specs.Names.{sigil, stash_depth, value_text, variable_text};
ghost use Rattle.ick_inspect.specs.Text.{Adds};
ghost use Rattle.ick_machine.specs.StateView.{present_state};

use crate::readers;
use crate::text::Text;
use ick_machine::StateView;
use ick_syntax::{Name, NameKind};

/// Returns the sigil of a kind of names.
fn sigil_of(kind: NameKind) -> &'static [u8]
    ensures { result.now ≡ sigil kind }
{
    match kind {
        NameKind::Onespot => b".",
        NameKind::Twospot => b":",
        NameKind::Tail => b",",
        NameKind::Hybrid => b";",
    }
}

/// Appends a name as programs write it, such as `.1`.
#[tactic(auto, unfolding(crate::specs::Names::name_text))]
pub fn append_name(text: &mut Text, name: Name)
    ensures { Adds text.old text.new (name_text name) }
{
    text.push(sigil_of(name.kind));
    text.push_decimal(u64::from(name.number));
}

/// Appends the dimensions of an array.
#[tactic(auto, unfolding(crate::specs::Names::dimensions_text))]
fn append_dimensions(text: &mut Text, dimensions: &[u32])
    ensures { Adds text.old text.new (dimensions_text dimensions.now) }
{
    if dimensions.is_empty() {
        text.push(b"no dimensions");
        return;
    }
    text.push_decimal(u64::from(dimensions[0]));
    text.push_numbers(b"x", &dimensions[1..]);
}

/// Appends an array.
fn append_array(text: &mut Text, present: &StateView<'_, '_, '_>, name: Name)
    ensures { Adds text.old text.new (array_text ((present_state present.now).arrays name)) }
{
    let dimensions = readers::dimensions(present, name);
    append_dimensions(text, dimensions);
    if !dimensions.is_empty() {
        text.push(b":");
        text.push_numbers(b" ", readers::elements(present, name));
    }
}

/// Appends the number of a variable, or an array.
fn append_value(text: &mut Text, present: &StateView<'_, '_, '_>, name: Name)
    ensures { Adds text.old text.new (value_text (present_state present.now) name) }
{
    if readers::names_array(name) {
        append_array(text, present, name);
    } else {
        text.push_decimal(u64::from(readers::number(present, name)));
    }
}

/// Returns how many values are stashed of a name.
fn stashed(present: &StateView<'_, '_, '_>, name: Name) -> usize
    ensures { result ≡ stash_depth (present_state present.now) name }
{
    if readers::names_array(name) {
        readers::stashed_arrays(present, name).len()
    } else {
        readers::stashed_numbers(present, name).len()
    }
}

/// Appends whether a name is ignored, and how many values are stashed of it.
#[tactic(auto, unfolding(crate::specs::Names::marks_text))]
fn append_marks(text: &mut Text, ignored: bool, depth: usize)
    ensures { Adds text.old text.new (marks_text ignored depth) }
{
    match (ignored, depth) {
        (false, 0) => {}
        (true, 0) => text.push(b" (ignored)"),
        (true, _) => {
            text.push(b" (ignored, ");
            text.push_decimal(depth as u64);
            text.push(b" stashed)");
        }
        (false, _) => {
            text.push(b" (");
            text.push_decimal(depth as u64);
            text.push(b" stashed)");
        }
    }
}

/// Appends a variable or an array with its value: `.1 = 7`, or `,1 = 2x3: 1 2 3 4 5 6`. An array
/// that has no dimensions yet is `,1 = no dimensions`. If the name is ignored or stashed, that
/// follows: `.1 = 7 (ignored, 2 stashed)`. No end of line is appended.
#[tactic(auto, unfolding(crate::specs::Names::variable_text))]
pub fn append_variable(text: &mut Text, present: &StateView<'_, '_, '_>, name: Name)
    ensures { Adds text.old text.new (variable_text (present_state present.now) name) }
{
    append_name(text, name);
    text.push(b" = ");
    append_value(text, present, name);
    append_marks(
        text,
        readers::is_ignored(present, name),
        stashed(present, name),
    );
}
