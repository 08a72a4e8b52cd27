//! Follows choices from node to node.

ghost use Rattle.std.specs.Prelude.{◌≡◌, ℕ, true, if◌then◌else◌, take, IfSome};
ghost use Rattle.ick_code.specs.meaning.State.{State as Meant};
ghost use Rattle.ick_outcomes.specs.Programs.{Program};
ghost use Rattle.ick_chain.specs.Chains.{IsFork, IsNode};
ghost use Rattle.ick_chain.specs.Shown.{LeadAlong, LeadToNode};

use crate::chain::{Edge, Fork, Node};

/// Returns the fork of a node that goes on, or `None` if the node has ended.
fn fork_of(node: Node) -> Option<Fork>
    ensures { IfSome result (λ fork. (p : Program) (seen : ℕ → Meant) (s : Meant) →
        IsNode p seen s node → IsFork p seen s fork) }
{
    match node {
        Node::Ends => None,
        Node::Goes(fork) => Some(fork),
        Node::Stuck(fork) => Some(fork),
    }
}

/// Returns the edge of a choice.
fn edge(fork: Fork, one: bool) -> Edge
    ensures { result ≡ (if one then fork.one else fork.zero) }
{
    if one { fork.one } else { fork.zero }
}

/// Returns the node to which the choices lead next, and how many of them are used up there. `None`
/// means that they lead no further.
#[tactic(auto, using(crate::proofs::Walks::lead_pass, crate::proofs::Walks::lead_on))]
fn next(nodes: &[Node], choices: &[bool], at: usize, used: usize) -> Option<(usize, usize)>
    ensures { IfSome result (λ p. (from : ℕ) → LeadAlong nodes.now from (take used choices.now) at →
        LeadAlong nodes.now from (take p.1 choices.now) p.0) }
{
    if at >= nodes.len() {
        return None;
    }
    match fork_of(nodes[at]) {
        None => None,
        Some(fork) => {
            if fork.chance == 0 {
                return Some((fork.zero.to, used));
            }
            if used >= choices.len() {
                return None;
            }
            let to = edge(fork, choices[used]).to;
            Some((to, used + 1))
        }
    }
}

/// Returns true only if choices lead from a node to another. At most as many nodes are passed as
/// there are.
#[tactic(auto, using(crate::proofs::Walks::lead_done, crate::proofs::Walks::lead_first))]
pub(crate) fn leads_from(nodes: &[Node], from: usize, choices: &[bool], to: usize) -> bool
    ensures { result ≡ true → LeadAlong nodes.now from choices.now to }
{
    let mut at = from;
    let mut used = 0;
    'steps: for step in 0..nodes.len() {
        if at == to && used == choices.len() {
            return true;
        }
        match next(nodes, choices, at, used) {
            None => return false,
            Some((node, more)) => {
                at = node;
                used = more;
            }
        }
    }
    at == to && used == choices.len()
}

/// Returns true only if choices lead from the first node to another.
pub(crate) fn leads(nodes: &[Node], choices: &[bool], to: usize) -> bool
    ensures { result ≡ true → LeadToNode nodes.now choices.now to }
{
    leads_from(nodes, 0, choices, to)
}
