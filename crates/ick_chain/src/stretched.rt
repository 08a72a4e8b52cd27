//! Tests that edges lead to choices and ends, or stop after as many steps as are made at a time.

ghost use Rattle.std.specs.Prelude.{◌≡◌, ◌<◌, ◌+◌, false, true};
ghost use Rattle.ick_chain.specs.Stretched.{AreStretched, IsPassing, IsStretched, IsStretchedFork};
ghost use Rattle.ick_chain.specs.Stretched.{IsStretchedNode};

use crate::chain::{Edge, Fork, Node};

/// Returns whether a node goes on and asks nothing.
fn is_passing(node: Node) -> bool
    ensures { result ≡ false → IsPassing node → ⊥ }
{
    match node {
        Node::Ends => false,
        Node::Goes(fork) => fork.chance == 0,
        Node::Stuck(fork) => fork.chance == 0,
    }
}

/// Returns whether an edge has at most `most` steps, and so many if it leads to a node that asks
/// nothing.
fn is_stretched(nodes: &[Node], edge: Edge, most: u32) -> bool
    ensures { result ≡ true → IsStretched nodes.now most edge }
{
    if edge.to >= nodes.len() || edge.steps > most {
        return false;
    }
    edge.steps == most || !is_passing(nodes[edge.to])
}

/// Returns whether that is so of both edges of a fork.
fn is_stretched_fork(nodes: &[Node], fork: Fork, most: u32) -> bool
    ensures { result ≡ true → IsStretchedFork nodes.now most fork }
{
    is_stretched(nodes, fork.zero, most) && is_stretched(nodes, fork.one, most)
}

/// Returns whether that is so of all edges of a node.
fn is_stretched_node(nodes: &[Node], node: Node, most: u32) -> bool
    ensures { result ≡ true → IsStretchedNode nodes.now most node }
{
    match node {
        Node::Ends => true,
        Node::Goes(fork) => is_stretched_fork(nodes, fork, most),
        Node::Stuck(fork) => is_stretched_fork(nodes, fork, most),
    }
}

/// Returns whether each edge has at most `most` steps, and so many if it leads to a node that asks
/// nothing.
pub(crate) fn are_stretched(nodes: &[Node], most: u32) -> bool
    ensures { result ≡ true → AreStretched nodes.now most }
{
    'nodes: for at in 0..nodes.len() {
        if !is_stretched_node(nodes, nodes[at], most) {
            return false;
        }
    }
    true
}
