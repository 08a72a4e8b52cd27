//! The instructions that are left of a statement, the operations that they come of, and the
//! instructions that are dropped.

ghost use Rattle.std.specs.Prelude.{◌≡◌, ◌<◌, ◌≤◌, Some, length, slice_get, OnOk};
ghost use Rattle.ick_inspect.specs.Text.{Adds};
ghost use Rattle.ick_stages.specs.Instructions.{operation_word};
ghost use Rattle.ick_stages.specs.Left.{begins_carry as is_begun, dropped_by, dropped_found};
ghost use Rattle.ick_stages.specs.Left.{dropped_line, dropped_text, ends_carry as is_ended};
ghost use Rattle.ick_stages.specs.Left.{instructions_text, is_carry as has_carry, is_or as has_or};
ghost use Rattle.ick_stages.specs.Left.{is_same as are_one, is_shifted as has_shifted, kept_of};
ghost use Rattle.ick_stages.specs.Left.{left_line, line_at, line_found, maker_at as made_at};
ghost use Rattle.ick_stages.specs.Left.{dropped_at, left_at as left_behind, makers_text, number_by};
ghost use Rattle.ick_stages.specs.Left.{some_makers, sort_one, sorted_first, sorts_of, spaced_by};
ghost use Rattle.ick_stages.specs.Left.{start_at, store_by};
ghost use Rattle.std.specs.Str.{bytes_eq};
ghost use Rattle.ick_stages.specs.Registers.{names_of};
ghost use Rattle.ick_stages.specs.Steps.{made_of};

use crate::instruction::{append_instruction, word_of};
use crate::registers::Registers;
use crate::steps::Makers;
use ick_bits::NoMemory;
use ick_inspect::Text;
use ick_instructions::{Instruction, Lowered, Operation};
use ick_lowering::draft::StatementDraft;
use std::alloc::Global;

/// An instruction that is left of a draft: its index, and the operation of the instruction that it
/// also does, or 0 if it does only its own.
#[derive(Clone, Copy)]
pub struct Left {
    pub at: usize,
    pub begun: u32,
}

/// The instructions of a draft that are left, in their order, and the indexes of those that are
/// dropped.
#[derive(Drop)]
pub struct Sorted {
    pub left: Vec<Left>,
    pub dropped: Vec<usize>,
    /// The operation of an instruction whose effect the next one that is left also has, or 0.
    pub begun: u32,
}

impl Sorted {
    /// Returns lists without instructions.
    pub fn new(alloc: Global) -> Sorted {
        Sorted {
            left: Vec::new(alloc),
            dropped: Vec::new(alloc),
            begun: 0,
        }
    }

    /// Adds an instruction of a draft that is dropped, by its index.
    fn drop_at(&mut self, at: usize) -> Result<(), NoMemory>
        ensures { OnOk result (sorts_of self.new ≡ dropped_at at (sorts_of self.old)) }
    {
        self.dropped.push(at).or(Err(NoMemory))
    }

    /// Adds an instruction of a draft that is left, by its index.
    fn leave(&mut self, at: usize) -> Result<(), NoMemory>
        ensures { OnOk result (sorts_of self.new ≡ left_behind at (sorts_of self.old)) }
    {
        let begun = self.begun;
        self.begun = 0;
        self.left.push(Left { at, begun }).or(Err(NoMemory))
    }

    /// Sorts the instruction of a draft at an index, which an operation made. `next` is the next
    /// instruction of the statement.
    fn sort(
        &mut self,
        next: Option<Instruction>,
        i: Instruction,
        at: usize,
        maker: u32,
    ) -> Result<(), NoMemory>
        ensures { OnOk result (sorts_of self.new ≡ sort_one next i at maker (sorts_of self.old)) }
    {
        let Some(next) = next else {
            return self.drop_at(at);
        };
        if begins_carry(i, next) {
            self.begun = maker;
            return Ok(());
        }
        if is_same(i, next) || ends_carry(i, next) {
            return self.leave(at);
        }
        self.drop_at(at)
    }

    /// Returns the first instruction of a statement that no instruction of a draft has become yet.
    fn next(&self, kept: &[Instruction]) -> Option<Instruction>
        ensures { result ≡ slice_get kept.now (length (sorts_of self.now).left) }
    {
        kept.get(self.left.len()).copied()
    }

    /// Sorts all instructions of a draft. `kept` are those of the statement.
    pub fn sort_all(
        &mut self,
        draft: &StatementDraft,
        makers: &Makers,
        kept: &[Instruction],
    ) -> Result<(), NoMemory>
        ensures { OnOk result (sorts_of self.new ≡ sorted_first draft.now.instructions.items
            (made_of makers.now).first kept.now (length draft.now.instructions.items)) }
    {
        self.left.clear();
        self.dropped.clear();
        self.begun = 0;
        for at in 0..draft.instructions.len() {
            let next = self.next(kept);
            self.sort(next, instruction_at(draft, at), at, maker_at(makers, at))?;
        }
        Ok(())
    }
}

/// Returns the instruction of a draft at an index.
fn instruction_at(draft: &StatementDraft, at: usize) -> Instruction
    requires { at < length draft.now.instructions.items }
    ensures { slice_get draft.now.instructions.items at ≡ Some result }
{
    draft.instructions[at]
}

/// Returns the operation that made the instruction of a draft at an index, or 0 if there is none.
fn maker_at(makers: &Makers, at: usize) -> u32
    ensures { result ≡ made_at (made_of makers.now).first at }
{
    match makers.first.get(at) {
        Some(maker) => *maker,
        None => 0,
    }
}

/// Returns whether an instruction is an and of a shifted number.
fn is_shifted(operation: Operation) -> bool
    ensures { result ≡ has_shifted operation }
{
    matches!(operation, Operation::AndShifted)
}

/// Returns whether an instruction is an or.
fn is_or(operation: Operation) -> bool
    ensures { result ≡ has_or operation }
{
    matches!(operation, Operation::Or)
}

/// Returns whether an instruction is a carry.
fn is_carry(operation: Operation) -> bool
    ensures { result ≡ has_carry operation }
{
    matches!(operation, Operation::Carry)
}

/// Returns whether two operations are one.
fn is_one(a: Operation, b: Operation) -> bool
    ensures { result ≡ bytes_eq (operation_word a) (operation_word b) }
{
    word_of(a) == word_of(b)
}

/// Returns whether two instructions are one, wherever their statement ends.
fn is_same(a: Instruction, b: Instruction) -> bool
    ensures { result ≡ are_one a b }
{
    is_one(a.operation, b.operation)
        && a.to == b.to
        && a.left == b.left
        && a.right == b.right
        && a.number == b.number
}

/// Returns whether an instruction is the shifted and of a carry.
fn begins_carry(and: Instruction, carry: Instruction) -> bool
    ensures { result ≡ is_begun and carry }
{
    is_shifted(and.operation)
        && is_carry(carry.operation)
        && and.left == carry.left
        && and.right == carry.right
        && and.number == carry.number
}

/// Returns whether an instruction is the or of a carry.
fn ends_carry(or: Instruction, carry: Instruction) -> bool
    ensures { result ≡ is_ended or carry }
{
    is_or(or.operation) && is_carry(carry.operation) && or.to == carry.to && or.left == carry.right
}

/// Returns the instructions of statement `n`.
pub fn instructions_of<'a>(lowered: &'a Lowered<'_, '_>, n: u32) -> &'a [Instruction]
    requires { n < 4294967295 }
    ensures { result.now ≡ kept_of lowered.now.parts n }
{
    let all = lowered.instructions();
    let from = start_of(lowered, n);
    let count = start_of(lowered, n + 1).saturating_sub(from);
    let count = count.min(all.len() - from);
    &all[from..from + count]
}

/// Returns the index of the first instruction of a statement.
fn start_of(lowered: &Lowered<'_, '_>, n: u32) -> usize
    ensures start { result ≡ start_at lowered.now.parts n }
    ensures within { result ≤ length lowered.now.parts.instructions.items }
{
    let count = lowered.instructions().len();
    match lowered.starts().get(n as usize) {
        Some(start) => (*start as usize).min(count),
        None => count,
    }
}

/// Appends the line of an instruction that is dropped.
#[tactic(auto, unfolding(crate::specs::Left::dropped_line))]
fn append_dropped_line(text: &mut Text, registers: &Registers<'_, '_>, maker: u32, i: Instruction)
    ensures { Adds text.old text.new (dropped_line (names_of registers.now) maker i) }
{
    text.push(b"  dropped ");
    text.push_decimal(u64::from(maker));
    text.push(b" ");
    append_instruction(text, registers, i);
    text.push(b"\n");
}

/// Appends the line of the instruction of a draft at an index, or nothing if there is none.
fn append_dropped_at(
    text: &mut Text,
    registers: &Registers<'_, '_>,
    draft: &StatementDraft,
    makers: &Makers,
    at: usize,
)
    ensures { Adds text.old text.new (dropped_by (names_of registers.now)
        draft.now.instructions.items (made_of makers.now).first at) }
{
    if let Some(i) = draft.instructions.get(at) {
        append_dropped_line(text, registers, maker_at(makers, at), *i);
    }
}

/// Appends a line for each instruction of a draft that is dropped: `  dropped 3 t1 = Mingle .1 .2`.
pub fn append_dropped(
    text: &mut Text,
    registers: &Registers<'_, '_>,
    draft: &StatementDraft,
    makers: &Makers,
    dropped: &[usize],
)
    ensures { Adds text.old text.new (dropped_text (names_of registers.now)
        draft.now.instructions.items (made_of makers.now).first dropped.now) }
{
    for at in dropped {
        append_dropped_at(text, registers, draft, makers, *at);
    }
}

/// Appends a number behind a space, unless it is 0.
fn append_number(text: &mut Text, number: u32)
    ensures { Adds text.old text.new (number_by number) }
{
    if number == 0 {
        return;
    }
    append_spaced(text, number);
}

/// Appends a number behind a space.
fn append_spaced(text: &mut Text, number: u32)
    ensures { Adds text.old text.new (spaced_by number) }
{
    text.push(b" ");
    text.push_decimal(u64::from(number));
}

/// Appends the operation that replaced an instruction, if it is the last one.
fn append_store(text: &mut Text, makers: &Makers, at: usize)
    ensures { Adds text.old text.new (store_by (made_of makers.now) at) }
{
    if at.saturating_add(1) == makers.first.len() {
        append_number(text, makers.store);
    }
}

/// Appends the operations that an instruction comes of, which is left.
#[tactic(auto, unfolding(crate::specs::Left::some_makers))]
fn append_some(text: &mut Text, makers: &Makers, left: Left)
    ensures { Adds text.old text.new (some_makers (made_of makers.now) left) }
{
    text.push(b" by");
    append_number(text, left.begun);
    append_number(text, maker_at(makers, left.at));
    append_store(text, makers, left.at);
}

/// Appends the operations that an instruction comes of, if it is left of the draft.
fn append_makers(text: &mut Text, makers: &Makers, left: Option<Left>)
    ensures { Adds text.old text.new (makers_text (made_of makers.now) left) }
{
    if let Some(left) = left {
        append_some(text, makers, left);
    }
}

/// Appends the line of an instruction of a statement.
#[tactic(auto, unfolding(crate::specs::Left::left_line))]
fn append_left_line(
    text: &mut Text,
    registers: &Registers<'_, '_>,
    makers: &Makers,
    left: Option<Left>,
    number: u64,
    i: Instruction,
)
    ensures { Adds text.old text.new
        (left_line (names_of registers.now) (made_of makers.now) left number i) }
{
    text.push(b"  instruction ");
    text.push_decimal(number);
    append_makers(text, makers, left);
    text.push(b": ");
    append_instruction(text, registers, i);
    text.push(b"\n");
}

/// Returns the instruction of a draft that the instruction of a statement at an index comes of.
fn left_at(left: &[Left], at: usize) -> Option<Left>
    ensures { result ≡ slice_get left.now at }
{
    left.get(at).copied()
}

/// Appends a line for each instruction of a statement, with the operations that it comes of:
/// `  instruction 1 by 8 9: .1 = Xor .1 .2`.
pub fn append_instructions(
    text: &mut Text,
    registers: &Registers<'_, '_>,
    makers: &Makers,
    left: &[Left],
    kept: &[Instruction],
)
    ensures { Adds text.old text.new
        (instructions_text (names_of registers.now) (made_of makers.now) left.now kept.now) }
{
    for at in 0..kept.len() {
        let from = left_at(left, at);
        append_left_line(text, registers, makers, from, at as u64 + 1, kept[at]);
    }
}
