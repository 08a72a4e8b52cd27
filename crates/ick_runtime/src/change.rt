//! What is noted of a change, so that it can be undone.

use crate::status::Status;
use std::mem::size_of;

/// How an array was changed. The array is kept apart from its entry.
#[derive(Clone, Copy)]
pub enum ArrayChange {
    /// It was the array, and another one is now.
    Replaced,
    /// It was the newest one on the array's stash, and was taken off.
    Taken,
    /// It was the array, and the newest one on the array's stash is now.
    Restored,
}

/// The value of a part before a change.
#[derive(Clone, Copy)]
pub enum Entry {
    /// The number in a register.
    Register(u32, u32),
    /// The register to which a register leads.
    Home(u32, u32),
    /// The status of a statement.
    Status(u32, Status),
    /// The return address at an index of the NEXT stack.
    Return(u32, u32),
    /// The number of an element: its slot, its offset and the number.
    Element(u32, u32, u32),
    /// Whether the array in a slot is ignored.
    Hidden(u32, bool),
    /// A number was put on the stash of the scalar in a slot.
    ScalarSaved(u32),
    /// The number that was taken off the stash of the scalar in a slot.
    ScalarTaken(u32, u32),
    /// A number that was taken off the stash of the scalar in a slot, and that may have become its
    /// number: the slot, the number and the scalar's number before.
    ScalarRestored(u32, u32, u32),
    /// An array was put on the stash of its slot.
    ArraySaved(u32),
    /// An array in a slot or on its stash. It is kept apart.
    Array(ArrayChange, u32),
    /// All statuses. They are kept apart.
    Statuses,
    /// How many bytes of the input were taken.
    Taken(usize),
    /// The length of the output.
    Output(usize),
    /// The position of the tape that arrays are printed to.
    Last(u8),
    /// The position of the tape that arrays are read from.
    LastIn(u8),
}

const _: () = prove!(size_of::<Entry>() <= 16);
