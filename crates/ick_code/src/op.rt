//! Operations over an operand stack.

use ick_syntax::Gerund;
use std::mem::size_of;

/// The slot of a scalar or of an array.
#[derive(Clone, Copy, Debug)]
pub enum SlotName {
    /// The slot of a onespot or a twospot.
    Scalar(u32),
    /// The slot of a tail or a hybrid.
    Array(u32),
}

/// One operation. It pops its operands off the operand stack, the last one first, changes the
/// state, and pushes its result. If it raises one of its faults, the fault ends the statement.
#[derive(Clone, Copy, Debug)]
pub enum Op {
    /// `Constant(number)` pops nothing and pushes the mesh. No fault (Revised Manual, 3.2).
    Constant(u16),
    /// `Load(slot)` pops nothing and pushes the scalar's value. No fault (Revised Manual, 3.1).
    Load(u32),
    /// `Fetch(slot, count)` pops that many subscripts and pushes the array's element. Fault 241 if
    /// the array has no such element (Revised Manual, 3.3).
    Fetch(u32, u32),
    /// Pops a value and pushes its unary and. No fault (Revised Manual, 3.4.2).
    And,
    /// Pops a value and pushes its unary or. No fault (Revised Manual, 3.4.2).
    Or,
    /// Pops a value and pushes its unary exclusive or. No fault (Revised Manual, 3.4.2).
    Xor,
    /// Pops two values and pushes their mingle. Fault 533 if one of them is above 65535 (Revised
    /// Manual, 3.4.1).
    Mingle,
    /// Pops two values and pushes the bits that the second selects from the first. No fault
    /// (Revised Manual, 3.4.1).
    Select,
    /// `Store(slot)` pops a value, stores it in the scalar and pushes nothing. Fault 275 if the
    /// value does not fit (Revised Manual, 4.4.1).
    Store(u32),
    /// `StoreAt(slot, count)` pops that many subscripts and then a value, stores it in the array's
    /// element and pushes nothing. Fault 241 if the array has no such element; otherwise fault 275
    /// if the value does not fit (Revised Manual, 4.4.1).
    StoreAt(u32, u32),
    /// `Resize(slot, count)` pops that many dimensions, gives them to the array and pushes nothing.
    /// Fault 240 if one of them is 0; otherwise fault 241 if there are more than 65,536 elements
    /// (Revised Manual, 3.3).
    Resize(u32, u32),
    /// `Call(n)` pops and pushes no operand. It pushes a return address on the NEXT stack and goes
    /// on at statement n. Fault 123 if the NEXT stack is full (Revised Manual, 4.4.2).
    Call(u32),
    /// Pops the number of return addresses to remove from the NEXT stack, and pushes nothing. No
    /// fault (Revised Manual, 4.4.3).
    Forget,
    /// Pops the number of return addresses to remove from the NEXT stack, goes on at the last one
    /// removed, and pushes nothing. Fault 621 if the number is 0, and fault 632 if the NEXT stack
    /// has fewer (Revised Manual, 4.4.4).
    Resume,
    /// `Save(name)` pops and pushes no operand. It pushes the name's value on its stash. No fault
    /// (Revised Manual, 4.4.5).
    Save(SlotName),
    /// `Restore(name)` pops and pushes no operand. It pops the name's value off its stash. Fault
    /// 436 if the stash is empty (Revised Manual, 4.4.6).
    Restore(SlotName),
    /// `Hide(name)` pops and pushes nothing. The name is ignored from now on. No fault (Revised
    /// Manual, 4.4.7).
    Hide(SlotName),
    /// `Show(name)` pops and pushes nothing. The name is no longer ignored. No fault (Revised
    /// Manual, 4.4.8).
    Show(SlotName),
    /// `AbstainOne(n)` pops and pushes nothing. Statement n is abstained from, unless it is GIVE
    /// UP. No fault (Revised Manual, 4.4.9).
    AbstainOne(u32),
    /// `ReinstateOne(n)` pops and pushes nothing. Statement n is no longer abstained from, unless
    /// it is GIVE UP. No fault (Revised Manual, 4.4.10).
    ReinstateOne(u32),
    /// `AbstainKind(gerund)` pops and pushes nothing. All statements that the gerund names are
    /// abstained from. No fault (Revised Manual, 4.4.9).
    AbstainKind(Gerund),
    /// `ReinstateKind(gerund)` pops and pushes nothing. No statement that the gerund names is
    /// abstained from. No fault (Revised Manual, 4.4.10).
    ReinstateKind(Gerund),
    /// Pops a value, appends its numeral to the output and pushes nothing. No fault (Revised
    /// Manual, 4.4.13).
    Print,
    /// `ReadTo(slot)` pops and pushes nothing. It stores the number of the next line of input in
    /// the scalar. Fault 562 if there is no line, 579 if a word names no digit, 533 if the number
    /// is above 4294967295, and 275 if it does not fit the scalar (Revised Manual, 4.4.12).
    ReadTo(u32),
    /// `ReadAt(slot, count)` pops that many subscripts and pushes nothing. It stores the number of
    /// the next line of input in the array's element. Fault 241 if the array has no such element,
    /// before a line is taken; otherwise the faults of `ReadTo` (Revised Manual, 4.4.12).
    ReadAt(u32, u32),
    /// `PrintArray(slot)` pops and pushes nothing. It appends the array's elements to the output as
    /// bytes. Fault 241 if the array does not have exactly one dimension (Revised Manual, 5.2).
    PrintArray(u32),
    /// `ReadArray(slot)` pops and pushes nothing. It reads bytes of input into the array's
    /// elements. Fault 241 if the array does not have exactly one dimension, before a byte is taken
    /// (Revised Manual, 5.2).
    ReadArray(u32),
    /// Pops and pushes nothing: the run gives up. No fault (Revised Manual, 4.4.11).
    Stop,
    /// Pops and pushes nothing. Always raises fault 0 with the statement's text (Revised Manual,
    /// 4.5).
    Fail,
}

const _: () = prove!(size_of::<Op>() <= 12);
