//! Tables of constants: those of 16 by their shortest period, and those of 1,024 by the moves of
//! bits.

ghost use Rattle.std.specs.Prelude.{◌≡◌, ◌<◌, ◌||◌, codes};
ghost use Rattle.ick_inspect.specs.Text.{Adds, numbers_text};
ghost use Rattle.ick_stages.specs.Registers.{names_of};
ghost use Rattle.ick_stages.specs.Tables.{bracketed_text, is_moved as moves_bit, is_pair};
ghost use Rattle.ick_stages.specs.Tables.{move_text};
ghost use Rattle.ick_stages.specs.Tables.{moves_text, period_of, repeats as repeating, table_of};
ghost use Rattle.ick_stages.specs.Tables.{one_text, separator_text, sized_text, table_text};

use crate::registers::Registers;
use ick_inspect::Text;

/// Returns the constants of a table: so many from a register on, or those that there are.
pub fn table<'a>(registers: &Registers<'a, '_>, register: u32, size: u32) -> &'a [u32]
    ensures { result.now ≡ table_of (names_of registers.now) register size }
{
    let all = registers.constants;
    let from = (register.saturating_sub(registers.layout.first) as usize).min(all.len());
    let count = (size as usize).min(all.len() - from);
    &all[from..from + count]
}

/// Returns whether numbers repeat after so many.
fn repeats(numbers: &[u32], count: usize) -> bool
    ensures { result ≡ repeating count numbers.now }
{
    count <= numbers.len() && numbers[count..] == numbers[..numbers.len() - count]
}

/// Returns the numbers that repeat: the first one, or the first 2, 4 or 8, or all of them.
fn period(numbers: &[u32]) -> &[u32]
    ensures { result.now ≡ period_of numbers.now }
{
    if repeats(numbers, 1) {
        &numbers[..1]
    } else if repeats(numbers, 2) {
        &numbers[..2]
    } else if repeats(numbers, 4) {
        &numbers[..4]
    } else if repeats(numbers, 8) {
        &numbers[..8]
    } else {
        numbers
    }
}

/// Appends numbers, each behind a space.
fn append_numbers(text: &mut Text, numbers: &[u32])
    ensures { Adds text.old text.new (numbers_text (codes " ") numbers.now) }
{
    for number in numbers {
        text.push(b" ");
        text.push_decimal(u64::from(*number));
    }
}

/// Appends numbers with spaces between them, in brackets.
#[tactic(auto, unfolding(crate::specs::Tables::bracketed_text))]
fn append_bracketed(text: &mut Text, numbers: &[u32])
    ensures { Adds text.old text.new (bracketed_text numbers.now) }
{
    text.push(b"[");
    if !numbers.is_empty() {
        text.push_decimal(u64::from(numbers[0]));
        append_numbers(text, &numbers[1..]);
    }
    text.push(b"]");
}

/// Returns whether a table moves bit `from` of a number to position `to`, each below 32.
fn is_moved(table: &[u32], from: u32, to: u32) -> bool
    requires from { from < 32 }
    requires to { to < 32 }
    ensures { result ≡ moves_bit table.now from to }
{
    match table.get((from / 8 * 256 + 2u32.pow(from % 8)) as usize) {
        Some(entry) => *entry & 2u32.pow(to) != 0,
        None => false,
    }
}

/// Appends the moves of bits that a table of 1,024 numbers makes, in brackets: `[0>0 2>1]`. The
/// entry of a number with one bit says where this bit goes.
fn append_moves(text: &mut Text, table: &[u32])
    ensures { Adds text.old text.new (moves_text table.now) }
{
    let mut some = false;
    text.push(b"[");
    for pair in 0..1024u32 {
        some = append_pair(text, table, pair, some);
    }
    text.push(b"]");
}

/// Returns a space if there is something before it.
fn separator(some: bool) -> &'static [u8]
    ensures { result.now ≡ separator_text some }
{
    if some { b" " } else { b"" }
}

/// Appends the move of bit `pair / 32` to position `pair % 32`, if a table makes it, behind a space
/// if there are `some` before it. Returns whether there are some behind it.
fn append_pair(text: &mut Text, table: &[u32], pair: u32, some: bool) -> bool
    requires { pair < 1024 }
    ensures added { Adds text.old text.new (one_text table.now some pair) }
    ensures some { result ≡ some || is_pair table.now pair }
{
    if is_moved(table, pair / 32, pair % 32) {
        text.push(separator(some));
        append_move(text, pair / 32, pair % 32);
        return true;
    }
    some
}

/// Appends a move of a bit.
#[tactic(auto, unfolding(crate::specs::Tables::move_text))]
fn append_move(text: &mut Text, from: u32, to: u32)
    ensures { Adds text.old text.new (move_text from to) }
{
    text.push_decimal(u64::from(from));
    text.push(b">");
    text.push_decimal(u64::from(to));
}

/// Appends a table of so many constants: the shortest period of a table of 16, and the moves of
/// bits of a greater one.
fn append_sized(text: &mut Text, table: &[u32], size: u32)
    ensures { Adds text.old text.new (sized_text table.now size) }
{
    if size == 16 {
        append_bracketed(text, period(table));
    } else {
        append_moves(text, table);
    }
}

/// Appends a table of constants from a register on, behind a space.
#[tactic(auto, unfolding(crate::specs::Tables::table_text))]
pub fn append_table(text: &mut Text, registers: &Registers<'_, '_>, register: u32, size: u32)
    ensures { Adds text.old text.new (table_text (names_of registers.now) register size) }
{
    text.push(b" ");
    append_sized(text, table(registers, register, size), size);
}
