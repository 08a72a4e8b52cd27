//! Marks the nodes from which no end can be reached.

ghost use Rattle.std.specs.Prelude.{◌≡◌, ◌<◌, List, length, OnOk, IfOk};
ghost use Rattle.ick_chain.specs.Marks.{IsMarked, AreMarked};

use crate::chain::Node;
use ick_bits::NoMemory;
use std::alloc::Global;

/// Returns whether the node with a number is known to reach an end.
fn is_known(known: &[bool], at: usize) -> bool {
    at < known.len() && known[at]
}

/// Returns whether a node ends, or leads to a node that is known to reach an end.
fn can_end(node: Node, known: &[bool]) -> bool {
    match node {
        Node::Ends => true,
        Node::Stuck(_) => false,
        Node::Goes(fork) => is_known(known, fork.zero.to) || is_known(known, fork.one.to),
    }
}

/// Looks at each node once, the last one first. Returns whether more nodes are known to reach an
/// end.
fn sweep(nodes: &[Node], known: &mut [bool]) -> bool
    requires { length known.old ≡ length nodes.now }
    ensures { length known.new ≡ length known.old }
{
    let mut more = false;
    'nodes: for back in 0..nodes.len() {
        let at = nodes.len() - 1 - back;
        if !known[at] && can_end(nodes[at], known) {
            known[at] = true;
            more = true;
        }
    }
    more
}

/// Returns which nodes can reach an end.
fn all_that_end(alloc: Global, nodes: &[Node]) -> Result<Vec<bool>, NoMemory>
    ensures { IfOk result (λ known. length known.items ≡ length nodes.now) }
{
    let mut known = Vec::new(alloc);
    'nodes: for at in 0..nodes.len() {
        known.push(false)?;
    }
    'sweeps: for round in 0..nodes.len() {
        if !sweep(nodes, &mut known) {
            return Ok(known);
        }
    }
    Ok(known)
}

/// Returns a node that is stuck if the node goes on.
fn stuck(node: Node) -> Node
    ensures { IsMarked node result }
{
    match node {
        Node::Goes(fork) => Node::Stuck(fork),
        Node::Stuck(fork) => Node::Stuck(fork),
        Node::Ends => Node::Ends,
    }
}

/// Marks one node.
#[tactic(auto, using(crate::proofs::Marking::marked_more))]
fn mark(nodes: &mut Vec<Node>, at: usize)
    requires { at < length nodes.old.items }
    ensures { (first : List Node) → AreMarked first nodes.old.items →
        AreMarked first nodes.new.items }
{
    nodes[at] = stuck(nodes[at]);
}

/// Marks the nodes from which no end can be reached.
#[tactic(auto, using(crate::proofs::Marking::marked_none))]
pub(crate) fn mark_stuck(alloc: Global, nodes: &mut Vec<Node>) -> Result<(), NoMemory>
    ensures { OnOk result (AreMarked nodes.old.items nodes.new.items) }
{
    let known = all_that_end(alloc, nodes)?;
    'nodes: for at in 0..known.len() {
        if !known[at] && at < nodes.len() {
            mark(nodes, at);
        }
    }
    Ok(())
}
