//! The memory of a run.

ghost use Rattle.std.specs.Prelude.{◌≤◌, length};

use crate::point::RunPoint;
use crate::status::Status;

/// An array: its dimensions, none at first, and its elements row by row.
#[derive(Drop)]
pub struct Array {
    pub dimensions: Vec<u32>,
    pub elements: Vec<u32>,
    pub hidden: bool,
    pub ghost few: { length elements.items ≤ 65536 },
}

/// A stash: its values, the newest last. The items from `depth` on are spare, and keep their
/// buffers. Whether an array on a stash is hidden doesn't matter.
#[derive(Drop)]
pub struct Stash<T> {
    pub items: Vec<T>,
    pub depth: usize,
    pub ghost there: { depth ≤ length items.items },
}

/// The parts of a state that few instructions change. Arrays and stashes are in the order of their
/// slots.
#[derive(Drop)]
pub struct Parts {
    pub arrays: Vec<Array>,
    pub scalar_stashes: Vec<Stash<u32>>,
    pub array_stashes: Vec<Stash<Array>>,
    pub taken: usize,
    pub output: Vec<u8>,
    pub last: u8,
    pub lastin: u8,
}

/// The state of a run. The registers are those of lowering, and one more behind them, which nothing
/// reads.
#[derive(Drop)]
pub struct Memory {
    pub registers: Vec<u32>,
    /// The register that each register leads to: itself, or the last one if its scalar is ignored.
    pub store_target: Vec<u32>,
    /// The statuses of all statements, by their numbers, and the status past the end.
    pub statuses: Vec<Status>,
    /// The NEXT stack: room for `NEXT_STACK_ROOM` return addresses. The first `point.depth` of them
    /// are on it.
    pub returns: Vec<u32>,
    pub rest: Parts,
    pub point: RunPoint,
    /// The answer to the first choice that is asked, which takes it: whether the statement is done.
    pub answer: Option<bool>,
}
