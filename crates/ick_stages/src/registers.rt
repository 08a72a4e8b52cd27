//! Registers by their names.

ghost use Rattle.std.specs.Prelude.{◌≡◌};
ghost use Rattle.ick_inspect.specs.Text.{Adds};
ghost use Rattle.ick_stages.specs.Registers.{drafted, listed_text, lowered_names, names_of};
ghost use Rattle.ick_stages.specs.Registers.{register_text, registers_text};

use crate::names::append_slot;
use ick_code::{Code, SlotName};
use ick_inspect::Text;
use ick_instructions::{Layout, Lowered};
use ick_lowering::draft::StatementDraft;

/// What the registers of instructions hold: scalars by their slots, temporaries, and constants. An
/// instruction names its subscripts by their indexes in a list of registers.
#[derive(Clone, Copy)]
pub struct Registers<'a, 'c> {
    pub code: &'a Code<'c>,
    pub layout: Layout,
    pub constants: &'a [u32],
    pub subscripts: &'a [u32],
}

impl<'a, 'c> Registers<'a, 'c> {
    /// Returns the registers of a draft.
    pub fn of_draft(
        code: &'a Code<'c>,
        layout: Layout,
        draft: &'a StatementDraft,
    ) -> Registers<'a, 'c>
        ensures { names_of result ≡ drafted code.now layout draft.now }
    {
        Registers {
            code,
            layout,
            constants: &draft.constants.list,
            subscripts: &draft.subscripts,
        }
    }

    /// Returns the registers of a lowered program.
    pub fn of_lowered(lowered: &'a Lowered<'a, 'c>) -> Registers<'a, 'c>
        ensures { names_of result ≡ lowered_names lowered.now }
    {
        Registers {
            code: lowered.code,
            layout: lowered.layout(),
            constants: lowered.constants(),
            subscripts: lowered.subscripts(),
        }
    }
}

/// Appends a register: a scalar by its name, a temporary as `t1`, a constant as `#7`. Nothing is
/// appended for a register that doesn't exist.
#[tactic(auto, unfolding(crate::specs::Registers::register_text))]
pub fn append_register(text: &mut Text, registers: &Registers<'_, '_>, register: u32)
    ensures { Adds text.old text.new (register_text (names_of registers.now) register) }
{
    let layout = registers.layout;
    if register < layout.base {
        append_slot(text, registers.code, SlotName::Scalar(register));
    } else if register < layout.first {
        text.push(b"t");
        text.push_decimal(u64::from(register - layout.base) + 1);
    } else if let Some(number) = registers.constants.get((register - layout.first) as usize) {
        text.push(b"#");
        text.push_decimal(u64::from(*number));
    }
}

/// Appends registers, each behind a space.
fn append_others(text: &mut Text, registers: &Registers<'_, '_>, others: &[u32])
    ensures { Adds text.old text.new (registers_text (names_of registers.now) others.now) }
{
    for register in others {
        text.push(b" ");
        append_register(text, registers, *register);
    }
}

/// Appends registers with spaces between them, in parentheses: `(.1 #2)`.
#[tactic(auto, unfolding(crate::specs::Registers::listed_text))]
pub fn append_registers(text: &mut Text, registers: &Registers<'_, '_>, list: &[u32])
    ensures { Adds text.old text.new (listed_text (names_of registers.now) list.now) }
{
    text.push(b"(");
    if !list.is_empty() {
        append_register(text, registers, list[0]);
        append_others(text, registers, &list[1..]);
    }
    text.push(b")");
}
