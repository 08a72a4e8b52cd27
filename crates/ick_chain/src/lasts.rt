//! Numbers the ended nodes of a chain in the order of their first runs, and finds for each node the
//! last of those that it leads to. Nothing rests on how they are found, because they are checked.

ghost use Rattle.std.specs.Prelude.{◌≡◌, true, slice_index_or};
ghost use Rattle.ick_chain.specs.declared.chain.Fork.{Fork as Meant};
ghost use Rattle.ick_chain.specs.Lasts.{AreLasts, IsLast};
ghost use Rattle.ick_chain.specs.Ways.{IsForkOf};

use crate::chain::{Fork, Node};
use crate::grading::fork_at;
use crate::ways::find_first;
use ick_bits::NoMemory;
use std::alloc::Global;

/// Nodes in an order in which edges lead forward. A node waits for its sources that are left.
#[derive(Drop)]
struct Order {
    sources: Vec<usize>,
    ready: Vec<usize>,
}

/// Counts one more source of a node.
fn add_source(order: &mut Order, to: usize) {
    if to < order.sources.len() {
        order.sources[to] = order.sources[to].wrapping_add(1);
    }
}

/// Counts the sources of all nodes.
fn count_sources(order: &mut Order, nodes: &[Node]) {
    'nodes: for at in 0..nodes.len() {
        if let Some(fork) = fork_at(nodes, at) {
            add_source(order, fork.zero.to);
            if fork.chance > 0 {
                add_source(order, fork.one.to);
            }
        }
    }
}

/// Takes a source away from a node.
fn take_source(order: &mut Order, to: usize) -> Result<(), NoMemory> {
    if to >= order.sources.len() || order.sources[to] == 0 {
        return Ok(());
    }
    order.sources[to] = order.sources[to] - 1;
    if order.sources[to] == 0 {
        order.ready.push(to)?;
    }
    Ok(())
}

/// Takes a node away from the sources of those that it leads to.
fn leave(order: &mut Order, nodes: &[Node], at: usize) -> Result<(), NoMemory> {
    if let Some(fork) = fork_at(nodes, at) {
        take_source(order, fork.zero.to)?;
        if fork.chance > 0 {
            take_source(order, fork.one.to)?;
        }
    }
    Ok(())
}

/// Returns so many zeros.
fn zeros(alloc: Global, count: usize) -> Result<Vec<usize>, NoMemory> {
    let mut zeros = Vec::new(alloc);
    'zeros: for at in 0..count {
        zeros.push(0)?;
    }
    Ok(zeros)
}

/// Returns the nodes to which no way has a cycle, in an order in which edges lead forward.
fn forward(alloc: Global, nodes: &[Node]) -> Result<Vec<usize>, NoMemory> {
    let mut order = Order {
        sources: zeros(alloc, nodes.len())?,
        ready: Vec::new(alloc),
    };
    count_sources(&mut order, nodes);
    'first: for at in 0..order.sources.len() {
        if order.sources[at] == 0 {
            order.ready.push(at)?;
        }
    }
    'turns: for turn in 0..nodes.len() {
        if turn < order.ready.len() {
            let at = order.ready[turn];
            leave(&mut order, nodes, at)?;
        }
    }
    Ok(order.ready)
}

/// Returns the number of a node, or 0 if it has none.
pub(crate) fn last_at(lasts: &[usize], at: usize) -> usize
    ensures { result ≡ slice_index_or lasts.now at 0 }
{
    if at < lasts.len() { lasts[at] } else { 0 }
}

/// Returns the number of the last end that a node leads to: its own, if it has ended.
fn last_of(lasts: &[usize], node: Node, number: usize) -> usize {
    match node {
        Node::Ends => number,
        Node::Stuck(_) => 0,
        Node::Goes(fork) => {
            let zero = last_at(lasts, fork.zero.to);
            let one = last_at(lasts, fork.one.to);
            if fork.chance == 0 || one < zero {
                return zero;
            }
            one
        }
    }
}

/// Finds for each node the number of the last of the ended nodes that it leads to. Their numbers
/// are in the order of their first runs. A node has the number 0 if a cycle is on some way to it.
pub(crate) fn find_lasts(alloc: Global, nodes: &[Node]) -> Result<Vec<usize>, NoMemory> {
    let numbers = find_first(alloc, nodes)?.numbers(alloc)?;
    let order = forward(alloc, nodes)?;
    let mut lasts = zeros(alloc, nodes.len())?;
    'order: for back in 0..order.len() {
        let at = order[order.len() - 1 - back];
        if at < nodes.len() && at < lasts.len() && at < numbers.len() {
            lasts[at] = last_of(&lasts, nodes[at], numbers[at]);
        }
    }
    Ok(lasts)
}

/// Returns true only if no edge of a fork leads to a node with a greater number than its own.
fn is_last(lasts: &[usize], fork: Fork, at: usize) -> bool
    ensures { result ≡ true → IsLast lasts.now at fork }
{
    let last = last_at(lasts, at);
    if last_at(lasts, fork.zero.to) > last {
        return false;
    }
    fork.chance == 0 || last_at(lasts, fork.one.to) <= last
}

/// Returns true only if this is so for the fork of a node, if it has one.
fn is_last_of(lasts: &[usize], node: Node, at: usize) -> bool
    ensures { (f : Meant) → result ≡ true → IsForkOf node f → IsLast lasts.now at f }
{
    match node {
        Node::Ends => true,
        Node::Goes(fork) => is_last(lasts, fork, at),
        Node::Stuck(fork) => is_last(lasts, fork, at),
    }
}

/// Returns true only if no edge leads to a node with a greater number.
pub(crate) fn are_lasts(nodes: &[Node], lasts: &[usize]) -> bool
    ensures { result ≡ true → AreLasts nodes.now lasts.now }
{
    'nodes: for at in 0..nodes.len() {
        if !is_last_of(lasts, nodes[at], at) {
            return false;
        }
    }
    true
}
