//! Checks how often the nodes of a chain are visited.

ghost use Rattle.std.specs.Prelude.{◌≡◌, ℕ, ◌+◌, ◌*◌, ◌<◌, ◌≤◌, true, length, IfOk, OnOk};
ghost use Rattle.ick_numbers.specs.Values.{natural, naturals};
ghost use Rattle.ick_chain.specs.Chains.{dot, out, out_of, poured, AreVisits, IsClosed, IsStuck};
ghost use Rattle.ick_chain.specs.Chains.{StaysStuck, IsInside, IsSolution};

use crate::chain::{Fork, Node};
use ick_bits::NoMemory;
use ick_numbers::Natural;
use std::alloc::Global;

/// Adds a number of hundredths of visits to the number of a node.
pub(crate) fn pour(
    into: &mut Vec<Natural>,
    to: usize,
    visits: &Natural,
    part: u8,
) -> Result<(), NoMemory>
    requires to { to < length into.old.items }
    ensures poured { OnOk result ((u : ℕ → ℕ) → dot u (naturals into.new.items)
        ≡ dot u (naturals into.old.items) + natural visits.now * part * u to) }
    ensures same { OnOk result (length into.new.items ≡ length into.old.items) }
{
    let more = visits.copy()?.times(u32::from(part))?;
    let sum = more.plus(&into[to])?;
    into[to] = sum;
    Ok(())
}

/// Returns whether both edges of a fork lead to nodes, and the chance is at most 100.
pub(crate) fn is_inside(fork: Fork, count: usize) -> bool
    ensures { result ≡ true → IsInside fork count }
{
    fork.chance <= 100 && fork.zero.to < count && fork.one.to < count
}

/// Adds the visits of a fork to the nodes that it leads to.
fn pour_fork(into: &mut Vec<Natural>, fork: Fork, visits: &Natural) -> Result<(), NoMemory>
    requires { IsInside fork (length into.old.items) }
    ensures poured { OnOk result ((u : ℕ → ℕ) → dot u (naturals into.new.items)
        ≡ dot u (naturals into.old.items) + natural visits.now * out u fork) }
    ensures same { OnOk result (length into.new.items ≡ length into.old.items) }
{
    pour(into, fork.zero.to, visits, 100 - fork.chance)?;
    pour(into, fork.one.to, visits, fork.chance)?;
    Ok(())
}

/// Adds the visits of a node to the nodes that it leads to. Returns whether it leads to nodes.
fn pour_node(into: &mut Vec<Natural>, node: Node, visits: &Natural) -> Result<bool, NoMemory>
    ensures poured { IfOk result (λ yes. yes ≡ true → (u : ℕ → ℕ) → dot u (naturals into.new.items)
        ≡ dot u (naturals into.old.items) + natural visits.now * out_of u node) }
    ensures same { OnOk result (length into.new.items ≡ length into.old.items) }
{
    match node {
        Node::Ends => Ok(true),
        Node::Stuck(_) => Ok(true),
        Node::Goes(fork) => {
            if !is_inside(fork, into.len()) {
                return Ok(false);
            }
            pour_fork(into, fork, visits)?;
            Ok(true)
        }
    }
}

/// Adds the visits of all nodes to the nodes that they lead to. Returns whether all lead to nodes.
fn pour_all(into: &mut Vec<Natural>, nodes: &[Node], visits: &[Natural]) -> Result<bool, NoMemory>
    requires { length visits.now ≡ length nodes.now }
    ensures poured { IfOk result (λ yes. yes ≡ true → (u : ℕ → ℕ) → dot u (naturals into.new.items)
        ≡ dot u (naturals into.old.items) + poured u nodes.now (naturals visits.now)) }
    ensures same { OnOk result (length into.new.items ≡ length into.old.items) }
{
    'nodes: for at in 0..nodes.len() {
        if !pour_node(into, nodes[at], &visits[at])? {
            return Ok(false);
        }
    }
    Ok(true)
}

/// Returns whether a number is a hundred times another.
pub(crate) fn is_hundredfold(sum: &Natural, visits: &Natural) -> Result<bool, NoMemory>
    ensures { IfOk result (λ yes. yes ≡ true → natural sum.now ≡ 100 * natural visits.now) }
{
    let all = visits.copy()?.times(100)?;
    Ok(sum.digits.as_slice() == all.digits.as_slice())
}

/// Returns whether each number is a hundred times the other list's.
fn are_hundredfold(sums: &[Natural], visits: &[Natural]) -> Result<bool, NoMemory>
    requires { length sums.now ≡ length visits.now }
    ensures { IfOk result (λ yes. yes ≡ true →
        (u : ℕ → ℕ) → dot u (naturals sums.now) ≡ 100 * dot u (naturals visits.now)) }
{
    'sums: for at in 0..sums.len() {
        if !is_hundredfold(&sums[at], &visits[at])? {
            return Ok(false);
        }
    }
    Ok(true)
}

/// Returns so many zeros.
pub(crate) fn zeros(alloc: Global, count: usize) -> Result<Vec<Natural>, NoMemory>
    ensures same { IfOk result (λ zeros. length zeros.items ≡ count) }
    ensures none { IfOk result (λ zeros. (u : ℕ → ℕ) → dot u (naturals zeros.items) ≡ 0) }
{
    let mut zeros = Vec::new(alloc);
    'zeros: for at in 0..count {
        zeros.push(Natural::zero(alloc))?;
    }
    Ok(zeros)
}

/// Returns whether `visits` says how often the nodes are visited, in so many parts, by a run that
/// begins at the first of them.
pub fn are_visits(
    alloc: Global,
    nodes: &[Node],
    parts: &Natural,
    visits: &[Natural],
) -> Result<bool, NoMemory>
    ensures { IfOk result (λ yes. yes ≡ true →
        AreVisits nodes.now 0 (natural parts.now) (naturals visits.now)) }
{
    if nodes.is_empty() || visits.len() != nodes.len() {
        return Ok(false);
    }
    let mut into = zeros(alloc, nodes.len())?;
    pour(&mut into, 0, parts, 100)?;
    if !pour_all(&mut into, nodes, visits)? {
        return Ok(false);
    }
    are_hundredfold(&into, visits)
}

/// Returns whether a node is stuck.
pub(crate) fn is_stuck(nodes: &[Node], at: usize) -> bool
    ensures { result ≡ true → IsStuck nodes.now at }
{
    at < nodes.len() && matches!(nodes[at], Node::Stuck(_))
}

/// Returns whether a stuck node leads to stuck nodes alone.
fn stays_stuck(nodes: &[Node], node: Node) -> bool
    ensures { (f : Fork) → result ≡ true → node ≡ Node.Stuck f → StaysStuck nodes.now f }
{
    match node {
        Node::Stuck(fork) => is_stuck(nodes, fork.zero.to) && is_stuck(nodes, fork.one.to),
        Node::Goes(_) => true,
        Node::Ends => true,
    }
}

/// Returns whether stuck nodes lead to stuck nodes alone.
pub fn is_closed(nodes: &[Node]) -> bool
    ensures { result ≡ true → IsClosed nodes.now }
{
    'nodes: for at in 0..nodes.len() {
        if !stays_stuck(nodes, nodes[at]) {
            return false;
        }
    }
    true
}

/// Returns whether a number isn't 0.
#[tactic(auto, using(crate::proofs::Digits::some_digit))]
pub(crate) fn is_some(number: &Natural) -> bool
    ensures { result ≡ true → 0 < natural number.now }
{
    'digits: for at in 0..number.digits.len() {
        if number.digits[at] != 0 {
            return true;
        }
    }
    false
}

/// Returns whether `visits` is a solution in so many parts, and stuck nodes lead to stuck nodes
/// alone.
pub(crate) fn is_solution(
    alloc: Global,
    nodes: &[Node],
    parts: &Natural,
    visits: &[Natural],
) -> Result<bool, NoMemory>
    ensures { IfOk result (λ yes. yes ≡ true →
        IsSolution nodes.now (natural parts.now) (naturals visits.now)) }
{
    if !is_some(parts) || !is_closed(nodes) {
        return Ok(false);
    }
    are_visits(alloc, nodes, parts, visits)
}
