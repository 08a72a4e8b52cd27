//! Instructions: `.1 = Xor .1 .2`, `t1 = Field .1 3 00000001`, `,1 = StoreAt .2 (.1)`, `Call 9`.

ghost use Rattle.std.specs.Prelude.{◌≡◌, option_map, slice_get};
ghost use Rattle.ick_inspect.specs.Text.{Adds};
ghost use Rattle.ick_stages.specs.Instructions.{digit_text, field_text, half_text, hex_text};
ghost use Rattle.ick_stages.specs.Instructions.{instruction_text, number_text, operation_word};
ghost use Rattle.ick_stages.specs.Instructions.{subscripts_text, target_text};
ghost use Rattle.ick_stages.specs.Instructions.{counts_subscripts as has_count};
ghost use Rattle.ick_stages.specs.Instructions.{has_mask as is_masked};
ghost use Rattle.ick_stages.specs.Instructions.{kind_text, kind_words, names_kind as has_kind};
ghost use Rattle.ick_stages.specs.Registers.{names_of};

use crate::names::append_slot;
use crate::registers::{Registers, append_register, append_registers};
use crate::table::append_table;
use ick_code::SlotName;
use ick_inspect::Text;
use ick_instructions::{Field, Instruction, Operation};

/// For each operation, in their order, its word.
static WORDS: [&[u8]; 56] = [
    b"Copy",
    b"AndNarrow",
    b"OrNarrow",
    b"XorNarrow",
    b"AndWide",
    b"OrWide",
    b"XorWide",
    b"AndBy",
    b"OrBy",
    b"XorBy",
    b"Mingle",
    b"Select",
    b"Field",
    b"ShiftIn",
    b"LookUp",
    b"Pick",
    b"And",
    b"Or",
    b"Xor",
    b"AndRotated",
    b"OrRotated",
    b"XorRotated",
    b"AndShifted",
    b"OrShifted",
    b"XorShifted",
    b"Carry",
    b"Ones",
    b"NonZero",
    b"Fetch",
    b"Check",
    b"Store",
    b"StoreAt",
    b"Resize",
    b"Call",
    b"Forget",
    b"Resume",
    b"SaveScalar",
    b"SaveArray",
    b"RestoreScalar",
    b"RestoreArray",
    b"HideScalar",
    b"HideArray",
    b"ShowScalar",
    b"ShowArray",
    b"Abstain",
    b"Reinstate",
    b"AbstainKind",
    b"ReinstateKind",
    b"Print",
    b"ReadTo",
    b"ReadAt",
    b"PrintArray",
    b"ReadArray",
    b"Stop",
    b"Fail",
    b"Pass",
];

/// Returns the word of an operation.
pub fn word_of(operation: Operation) -> &'static [u8]
    ensures { result.now ≡ operation_word operation }
{
    WORDS[operation as usize]
}

/// For each kind of statements, in their order, its word.
static KINDS: [&[u8]; 14] = [
    b"CALCULATE",
    b"NEXT",
    b"FORGET",
    b"RESUME",
    b"STASH",
    b"RETRIEVE",
    b"IGNORE",
    b"REMEMBER",
    b"ABSTAIN",
    b"REINSTATE",
    b"GIVE-UP",
    b"WRITE-IN",
    b"READ-OUT",
    b"UNRECOGNISED",
];

/// The digits of hexadecimal numbers.
static DIGITS: &[u8] = b"0123456789abcdef";

/// Appends four hexadecimal digits: the lowest 16 bits of a number.
#[tactic(auto, unfolding(crate::specs::Instructions::half_text))]
fn append_half(text: &mut Text, number: u32)
    ensures { Adds text.old text.new (half_text number) }
{
    append_digit(text, number / 4096);
    append_digit(text, number / 256);
    append_digit(text, number / 16);
    append_digit(text, number);
}

/// Appends the hexadecimal digit of the lowest four bits of a number.
fn append_digit(text: &mut Text, number: u32)
    ensures { Adds text.old text.new (digit_text number) }
{
    let at = (number % 16) as usize;
    text.push(&DIGITS[at..at + 1]);
}

/// Appends eight hexadecimal digits.
#[tactic(auto, unfolding(crate::specs::Instructions::hex_text))]
pub fn append_hex(text: &mut Text, number: u32)
    ensures { Adds text.old text.new (hex_text number) }
{
    append_half(text, number / 65536);
    append_half(text, number);
}

/// Appends subscripts in parentheses, behind a space.
#[tactic(auto, unfolding(crate::specs::Instructions::subscripts_text))]
fn append_subscripts(text: &mut Text, registers: &Registers<'_, '_>, from: u32, count: u32)
    ensures { Adds text.old text.new (subscripts_text (names_of registers.now) from count) }
{
    let all = registers.subscripts;
    let from = (from as usize).min(all.len());
    let count = (count as usize).min(all.len() - from);
    text.push(b" ");
    append_registers(text, registers, &all[from..from + count]);
}

/// Returns whether the number of an instruction says how many subscripts there are.
fn counts_subscripts(operation: Operation) -> bool
    ensures { result ≡ has_count operation }
{
    match operation {
        Operation::Fetch | Operation::StoreAt | Operation::Resize | Operation::ReadAt => true,
        _ => false,
    }
}

/// Returns whether the number of an instruction is that of a kind of statements.
fn names_kind(operation: Operation) -> bool
    ensures { result ≡ has_kind operation }
{
    matches!(operation, Operation::AbstainKind | Operation::ReinstateKind)
}

/// Returns whether the number of an instruction is a mask.
fn has_mask(operation: Operation) -> bool
    ensures { result ≡ is_masked operation }
{
    matches!(operation, Operation::Field)
}

/// Returns the word of a kind of statements, by its number.
fn kind_at(number: u32) -> Option<&'static [u8]>
    ensures { option_map (λ word. word.now) result ≡ slice_get kind_words number }
{
    KINDS.get(number as usize).copied()
}

/// Appends the word of a kind of statements behind a space, or nothing if there is no such kind.
fn append_kind(text: &mut Text, number: u32)
    ensures { Adds text.old text.new (kind_text (slice_get kind_words number)) }
{
    if let Some(word) = kind_at(number) {
        text.push(b" ");
        text.push(word);
    }
}

/// Appends the number of an instruction, behind a space. The number of subscripts is left out, a
/// kind of statements is its word, and a mask has eight hexadecimal digits.
#[tactic(auto, unfolding(crate::specs::Instructions::number_text))]
fn append_number(text: &mut Text, operation: Operation, number: u32)
    ensures { Adds text.old text.new (number_text operation number) }
{
    if counts_subscripts(operation) {
        return;
    }
    if names_kind(operation) {
        append_kind(text, number);
        return;
    }
    text.push(b" ");
    if has_mask(operation) {
        append_hex(text, number);
    } else {
        text.push_decimal(u64::from(number));
    }
}

/// Appends what an instruction changes: a register, a scalar or an array, and ` = `. Nothing is
/// appended for an instruction that changes none.
#[tactic(auto, unfolding(crate::specs::Instructions::target_text))]
fn append_target(text: &mut Text, registers: &Registers<'_, '_>, field: Field, to: u32)
    ensures { Adds text.old text.new (target_text (names_of registers.now) field to) }
{
    match field {
        Field::Target => append_register(text, registers, to),
        Field::Scalar => append_slot(text, registers.code, SlotName::Scalar(to)),
        Field::Array => append_slot(text, registers.code, SlotName::Array(to)),
        _ => return,
    }
    text.push(b" = ");
}

/// Appends what a field of an instruction says, behind a space.
#[tactic(auto, unfolding(crate::specs::Instructions::field_text))]
fn append_field(
    text: &mut Text,
    registers: &Registers<'_, '_>,
    i: Instruction,
    field: Field,
    x: u32,
)
    ensures { Adds text.old text.new (field_text (names_of registers.now) i field x) }
{
    match field {
        Field::Register => {
            text.push(b" ");
            append_register(text, registers, x);
        }
        Field::Scalar => {
            text.push(b" ");
            append_slot(text, registers.code, SlotName::Scalar(x));
        }
        Field::Array => {
            text.push(b" ");
            append_slot(text, registers.code, SlotName::Array(x));
        }
        Field::Shift | Field::Statement => {
            text.push(b" ");
            text.push_decimal(u64::from(x));
        }
        Field::Number => append_number(text, i.operation, x),
        Field::Table(size) => append_table(text, registers, x, size),
        Field::Subscripts => append_subscripts(text, registers, x, i.number),
        Field::Target | Field::Spare | Field::Unused => {}
    }
}

/// Appends an instruction. No end of line is appended.
#[tactic(auto, unfolding(crate::specs::Instructions::instruction_text))]
pub fn append_instruction(text: &mut Text, registers: &Registers<'_, '_>, i: Instruction)
    ensures { Adds text.old text.new (instruction_text (names_of registers.now) i) }
{
    let format = i.operation.format();
    append_target(text, registers, format.to, i.to);
    text.push(word_of(i.operation));
    append_field(text, registers, i, format.left, i.left);
    append_field(text, registers, i, format.right, i.right);
    append_field(text, registers, i, format.number, i.number);
}
