//! Chooses the node that is eliminated next. Nothing rests on it.

use ick_bits::NoMemory;
use std::alloc::Global;

/// More levels than a cost can have.
const LEVELS: usize = 256;

/// Nodes by the levels of their costs. A node is put in again if its cost has changed, so an entry
/// counts only if its level is that of the node's cost. Nodes without a source that is left cost
/// nothing, and come first. A closed queue takes no nodes.
#[derive(Drop)]
pub(crate) struct Queue {
    levels: Vec<Vec<usize>>,
}

impl Queue {
    /// Returns a queue without nodes.
    pub(crate) fn new(alloc: Global) -> Result<Queue, NoMemory> {
        let mut levels = Vec::new(alloc);
        'levels: for level in 0..LEVELS {
            levels.push(Vec::new(alloc))?;
        }
        Ok(Queue { levels })
    }

    /// Returns a queue that takes no nodes.
    pub(crate) fn closed(alloc: Global) -> Queue {
        Queue {
            levels: Vec::new(alloc),
        }
    }

    /// Returns whether the queue takes no nodes.
    pub(crate) fn is_closed(&self) -> bool {
        self.levels.is_empty()
    }

    /// Returns the level of a cost: one for each cost below 8, and then four for each doubling.
    pub(crate) fn level(cost: usize) -> usize {
        let mut rest = cost;
        let mut level: usize = 0;
        'doublings: for doubling in 0..64_u32 {
            if rest < 8 {
                return level.wrapping_add(rest);
            }
            rest = rest / 2;
            level = level.wrapping_add(4);
        }
        level
    }

    /// Puts a node in.
    pub(crate) fn push(&mut self, node: usize, cost: usize) -> Result<(), NoMemory> {
        let level = Queue::level(cost);
        if level < self.levels.len() {
            self.levels[level].push(node)?;
        }
        Ok(())
    }

    /// Removes a node of the lowest level, and returns it and the level.
    pub(crate) fn pop(&mut self) -> Option<(usize, usize)> {
        'levels: for level in 0..self.levels.len() {
            if let Some(node) = self.levels[level].pop() {
                return Some((node, level));
            }
        }
        None
    }
}
