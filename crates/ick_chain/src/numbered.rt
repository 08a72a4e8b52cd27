//! Tests that the nodes of a chain are numbered as a search by breadth meets them.

ghost use Rattle.std.specs.Prelude.{◌≡◌, ◌≤◌, length, true, IfSome};
ghost use Rattle.ick_chain.specs.Numbered.{AreNumbered, IsMet, IsMetFork, met, met_by, met_fork};

use crate::chain::{Edge, Fork, Node};

/// Returns how many nodes are numbered after an edge, if so many are before it. Returns `None` if
/// the edge leads to none of them, and not to the next one.
fn after_edge(count: usize, edge: Edge) -> Option<usize>
    ensures { IfSome result (λ more. (edge.to ≤ count) × (more ≡ met count edge)) }
{
    if edge.to > count || count == usize::MAX {
        return None;
    }
    if edge.to == count {
        return Some(count + 1);
    }
    Some(count)
}

/// Returns how many nodes are numbered after the edges of a fork, if that is so of both.
fn after_fork(count: usize, fork: Fork) -> Option<usize>
    ensures { IfSome result (λ more. IsMetFork count fork × (more ≡ met_fork count fork)) }
{
    let between = after_edge(count, fork.zero)?;
    let both = after_edge(between, fork.one)?;
    if fork.chance == 0 {
        return Some(between);
    }
    Some(both)
}

/// Returns how many nodes are numbered after the edges of a node, if that is so of all.
fn after_node(count: usize, node: Node) -> Option<usize>
    ensures { IfSome result (λ more. IsMet count node × (more ≡ met_by count node)) }
{
    match node {
        Node::Ends => Some(count),
        Node::Goes(fork) => after_fork(count, fork),
        Node::Stuck(fork) => after_fork(count, fork),
    }
}

/// Returns whether nodes are numbered as a search by breadth meets them.
pub(crate) fn are_numbered(nodes: &[Node]) -> bool
    ensures { result ≡ true → AreNumbered nodes.now (length nodes.now) (length nodes.now) }
{
    let mut count = 1;
    'nodes: for at in 0..nodes.len() {
        if at >= count {
            return false;
        }
        match after_node(count, nodes[at]) {
            Some(more) => count = more,
            None => return false,
        }
    }
    count == nodes.len()
}
