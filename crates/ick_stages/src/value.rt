//! What is known of the value of an operand.

ghost use Rattle.std.specs.Prelude.{◌≡◌, slice_get};
ghost use Rattle.ick_inspect.specs.Text.{Adds};
ghost use Rattle.ick_stages.specs.Registers.{names_of};
ghost use Rattle.ick_stages.specs.Values.{all_ones as every_one, chosen_entry, chosen_text};
ghost use Rattle.ick_stages.specs.Values.{entry_text, facts_text};
ghost use Rattle.ick_stages.specs.Values.{field_text, halved_text, masked_text, ones_text};
ghost use Rattle.ick_stages.specs.Values.{pair_text};
ghost use Rattle.ick_stages.specs.Values.{pick_text, places_text, rotated_text, shape_text};
ghost use Rattle.ick_stages.specs.Values.{value_text};
ghost use Rattle.ick_stages.specs.Values.{width_text, word_between};

use crate::instruction::append_hex;
use crate::registers::{Registers, append_register};
use crate::table::table;
use crate::tree::unary_sign_of;
use ick_inspect::Text;
use ick_lowering::value::{Facts, Field, Operand, OperandWidth, Shape};
use ick_syntax::UnaryOp;

/// Returns the word for an operator between two fields.
fn word_of(op: UnaryOp) -> &'static [u8]
    ensures { result.now ≡ word_between op }
{
    match op {
        UnaryOp::And => b" and ",
        UnaryOp::Or => b" or ",
        UnaryOp::Xor => b" xor ",
    }
}

/// Appends that a field has every second bit, if it is a half.
fn append_half(text: &mut Text, half: bool)
    ensures { Adds text.old text.new (halved_text half) }
{
    if half {
        text.push(b"every second bit of ");
    }
}

/// Appends by how many places a field is rotated, unless it is by none.
fn append_rotation(text: &mut Text, by: u32)
    ensures { Adds text.old text.new (rotated_text by) }
{
    if by != 0 {
        append_places(text, by);
    }
}

/// Appends how many places a field is rotated by.
fn append_places(text: &mut Text, by: u32)
    ensures { Adds text.old text.new (places_text by) }
{
    text.push(b" rotated by ");
    text.push_decimal(u64::from(by));
}

/// Appends the mask of a field, unless it has all ones.
fn append_mask(text: &mut Text, mask: u32)
    ensures { Adds text.old text.new (masked_text mask) }
{
    if mask == u32::MAX {
        return;
    }
    text.push(b" & ");
    append_hex(text, mask);
}

/// Appends a field: `every second bit of .1 rotated by 3 & 0000ffff`.
#[tactic(auto, unfolding(crate::specs::Values::field_text))]
fn append_field(text: &mut Text, registers: &Registers<'_, '_>, field: Field)
    ensures { Adds text.old text.new (field_text (names_of registers.now) field) }
{
    append_half(text, field.half);
    append_register(text, registers, field.of);
    append_rotation(text, field.by % 32);
    append_mask(text, field.mask);
}

/// Appends two registers with a word between them.
#[tactic(auto, unfolding(crate::specs::Values::pair_text))]
fn append_pair(text: &mut Text, registers: &Registers<'_, '_>, left: u32, word: &[u8], right: u32)
    ensures { Adds text.old text.new (pair_text (names_of registers.now) left word.now right) }
{
    append_register(text, registers, left);
    text.push(word);
    append_register(text, registers, right);
}

/// Appends the numbers of a table that a field may choose, and the field.
#[tactic(auto, unfolding(crate::specs::Values::pick_text))]
fn append_pick(text: &mut Text, registers: &Registers<'_, '_>, field: Field, at: u32)
    ensures { Adds text.old text.new (pick_text (names_of registers.now) field at) }
{
    text.push(b"one of");
    append_chosen(text, table(registers, at, 16), field.mask);
    text.push(b" by ");
    append_field(text, registers, field);
}

/// Appends the numbers of a table at the indexes that have ones only where a mask has, each behind
/// a space.
fn append_chosen(text: &mut Text, table: &[u32], mask: u32)
    ensures { Adds text.old text.new (chosen_text table.now mask) }
{
    for at in 0..16u32 {
        append_choice(text, table, mask, at);
    }
}

/// Appends an entry of a table at an index, if it has ones only where a mask has.
fn append_choice(text: &mut Text, table: &[u32], mask: u32, at: u32)
    ensures { Adds text.old text.new (chosen_entry table.now mask at) }
{
    if at & mask == at {
        append_entry(text, table, at);
    }
}

/// Appends an entry of a table behind a space, or nothing if there is no such entry.
fn append_entry(text: &mut Text, table: &[u32], at: u32)
    ensures { Adds text.old text.new (entry_text (slice_get table.now at)) }
{
    if let Some(number) = table.get(at as usize) {
        text.push(b" ");
        text.push_decimal(u64::from(*number));
    }
}

/// Appends what the number is in terms of others, behind a comma and a space.
#[tactic(auto, unfolding(crate::specs::Values::shape_text))]
fn append_shape(text: &mut Text, registers: &Registers<'_, '_>, shape: Shape)
    ensures { Adds text.old text.new (shape_text (names_of registers.now) shape) }
{
    match shape {
        Shape::Plain => {}
        Shape::Field(field) => {
            text.push(b", ");
            append_field(text, registers, field);
        }
        Shape::Mingle(left, right, _, _) => {
            text.push(b", ");
            append_pair(text, registers, left, b" $ ", right);
        }
        Shape::UnaryOfMingle(op, left, right, _, _) => {
            text.push(b", ");
            text.push(unary_sign_of(op));
            text.push(b"(");
            append_pair(text, registers, left, b" $ ", right);
            text.push(b")");
        }
        Shape::Both(op, a, b) => {
            text.push(b", ");
            append_field(text, registers, a);
            text.push(word_of(op));
            append_field(text, registers, b);
        }
        Shape::Ones(register) => {
            text.push(b", ");
            append_pair(text, registers, register, b" ~ ", register);
        }
        Shape::Pick(field, at) => {
            text.push(b", ");
            append_pick(text, registers, field, at);
        }
    }
}

/// Appends the width of a value.
#[tactic(auto, unfolding(crate::specs::Values::width_text))]
fn append_width(text: &mut Text, registers: &Registers<'_, '_>, width: OperandWidth)
    ensures { Adds text.old text.new (width_text (names_of registers.now) width) }
{
    match width {
        OperandWidth::Narrow => text.push(b"16 bits"),
        OperandWidth::Wide => text.push(b"32 bits"),
        OperandWidth::By(register) => {
            text.push(b"16 or 32 bits by ");
            append_register(text, registers, register);
        }
    }
}

/// Returns the ones that a number of a width may have.
fn all_ones(width: OperandWidth) -> u32
    ensures { result ≡ every_one width }
{
    match width {
        OperandWidth::Narrow => 65535,
        _ => u32::MAX,
    }
}

/// Appends the ones that a number may have behind a comma, unless they are all of its width.
fn append_ones(text: &mut Text, ones: u32, all: u32)
    ensures { Adds text.old text.new (ones_text ones all) }
{
    if ones == all {
        return;
    }
    text.push(b", ones ");
    append_hex(text, ones);
}

/// Appends facts, behind a comma and a space: the width, the ones if they are fewer than the width
/// allows, and the shape.
#[tactic(auto, unfolding(crate::specs::Values::facts_text))]
fn append_facts(text: &mut Text, registers: &Registers<'_, '_>, facts: Facts)
    ensures { Adds text.old text.new (facts_text (names_of registers.now) facts) }
{
    text.push(b", ");
    append_width(text, registers, facts.width);
    append_ones(text, facts.ones, all_ones(facts.width));
    append_shape(text, registers, facts.shape);
}

/// Appends the register of an operand, and what is known of its value. A constant is known.
#[tactic(auto, unfolding(crate::specs::Values::value_text))]
pub fn append_value(text: &mut Text, registers: &Registers<'_, '_>, operand: Operand)
    ensures { Adds text.old text.new (value_text (names_of registers.now) operand) }
{
    append_register(text, registers, operand.register);
    if operand.register < registers.layout.first {
        append_facts(text, registers, operand.facts);
    }
}
