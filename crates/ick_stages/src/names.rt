//! The names of slots.

ghost use Rattle.ick_code.specs.Compiled.{code_slots};
ghost use Rattle.ick_inspect.specs.Text.{Adds};
ghost use Rattle.ick_stages.specs.Names.{slot_text};

use ick_code::{Code, SlotName};
use ick_inspect::{Text, append_name};

/// Appends the name of a slot as programs write it, such as `.1`, or nothing if there is no such
/// slot.
#[tactic(auto, unfolding(crate::specs::Names::slot_text, crate::specs::Names::found_text))]
pub fn append_slot(text: &mut Text, code: &Code<'_>, name: SlotName)
    ensures { Adds text.old text.new (slot_text (code_slots code.now) name) }
{
    match name {
        SlotName::Scalar(slot) => {
            if slot < code.scalars() {
                append_name(text, code.scalar(slot));
            }
        }
        SlotName::Array(slot) => {
            if slot < code.arrays() {
                append_name(text, code.array(slot));
            }
        }
    }
}
