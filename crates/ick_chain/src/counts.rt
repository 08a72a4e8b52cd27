//! Checks how many ways lead to the nodes of a chain.

ghost use Rattle.std.specs.Prelude.{◌≡◌, ◌⊎◌, ℕ, ◌+◌, ◌*◌, ◌<◌, true, None as none, Some, length};
ghost use Rattle.std.specs.Prelude.{slice_get, IfOk, OnOk};
ghost use Rattle.ick_numbers.specs.Values.{natural, naturals};
ghost use Rattle.ick_chain.specs.Chains.{dot, IsInside};
ghost use Rattle.ick_chain.specs.Counts.{AreCounts, AreGraded, IsEdgeGraded, IsGraded, IsLower};
ghost use Rattle.ick_chain.specs.Counts.{along, along_of, handed};

use crate::chain::{Fork, Node};
use crate::products::are_equal;
use crate::visits::{is_inside, pour, zeros};
use ick_bits::NoMemory;
use ick_numbers::Natural;
use std::alloc::Global;

/// Returns true only if the second grade is the greater one, or there is none.
fn is_lower(one: Option<usize>, other: Option<usize>) -> bool
    ensures { result ≡ true → IsLower one other }
{
    match (one, other) {
        (_, None) => true,
        (None, Some(_)) => false,
        (Some(first), Some(second)) => first < second,
    }
}

/// Returns true only if a node has a greater grade, or none.
fn is_edge_graded(grades: &[Option<usize>], grade: Option<usize>, to: usize) -> bool
    ensures { result ≡ true → IsEdgeGraded grades.now grade to }
{
    to < grades.len() && is_lower(grade, grades[to])
}

/// Returns true only if a node leads to nodes with greater grades, or without any.
fn is_graded(grades: &[Option<usize>], grade: Option<usize>, node: Node) -> bool
    ensures { (f : Fork) → result ≡ true → node ≡ Node.Goes f → IsGraded grades.now grade f }
{
    match node {
        Node::Ends => true,
        Node::Stuck(_) => true,
        Node::Goes(fork) => {
            is_edge_graded(grades, grade, fork.zero.to)
                && is_edge_graded(grades, grade, fork.one.to)
        }
    }
}

/// Returns true only if grades grow along the edges.
#[tactic(auto, using(crate::proofs::Handing::graded_more, crate::proofs::Handing::graded_all))]
pub(crate) fn are_graded(nodes: &[Node], grades: &[Option<usize>]) -> bool
    requires { length grades.now ≡ length nodes.now }
    ensures { result ≡ true → AreGraded nodes.now grades.now }
{
    'nodes: for at in 0..nodes.len() {
        if !is_graded(grades, grades[at], nodes[at]) {
            return false;
        }
    }
    true
}

/// Adds the ways to a fork to those of the nodes that it leads to.
#[tactic(auto, using(crate::proofs::Handing::handed_fork, crate::proofs::Handing::handed_pass))]
fn hand_fork(into: &mut Vec<Natural>, fork: Fork, count: &Natural) -> Result<(), NoMemory>
    requires { IsInside fork (length into.old.items) }
    ensures handed { OnOk result ((u : ℕ → ℕ) → dot u (naturals into.new.items)
        ≡ dot u (naturals into.old.items) + natural count.now * along u fork.chance fork) }
    ensures same { OnOk result (length into.new.items ≡ length into.old.items) }
{
    pour(into, fork.zero.to, count, 1)?;
    if fork.chance > 0 {
        pour(into, fork.one.to, count, 1)?;
    }
    Ok(())
}

/// Adds the ways to a node to those of the nodes that it leads to. Returns whether it leads to
/// nodes.
fn hand(into: &mut Vec<Natural>, node: Node, count: &Natural) -> Result<bool, NoMemory>
    ensures handed { IfOk result (λ yes. yes ≡ true → (u : ℕ → ℕ) → dot u (naturals into.new.items)
        ≡ dot u (naturals into.old.items) + natural count.now * along_of u node) }
    ensures same { OnOk result (length into.new.items ≡ length into.old.items) }
{
    match node {
        Node::Ends => Ok(true),
        Node::Stuck(_) => Ok(true),
        Node::Goes(fork) => {
            if !is_inside(fork, into.len()) {
                return Ok(false);
            }
            hand_fork(into, fork, count)?;
            Ok(true)
        }
    }
}

/// Adds the ways to all nodes to those of the nodes that they lead to. Returns whether all lead to
/// nodes.
fn hand_all(into: &mut Vec<Natural>, nodes: &[Node], counts: &[Natural]) -> Result<bool, NoMemory>
    requires { length counts.now ≡ length nodes.now }
    ensures handed { IfOk result (λ yes. yes ≡ true → (u : ℕ → ℕ) → dot u (naturals into.new.items)
        ≡ dot u (naturals into.old.items) + handed u nodes.now (naturals counts.now)) }
    ensures same { OnOk result (length into.new.items ≡ length into.old.items) }
{
    'nodes: for at in 0..nodes.len() {
        if !hand(into, nodes[at], &counts[at])? {
            return Ok(false);
        }
    }
    Ok(true)
}

/// Returns true only if two counts are equal, or their node has no grade.
fn is_count(grade: Option<usize>, sum: &Natural, count: &Natural) -> bool
    ensures { result ≡ true → (grade ≡ none) ⊎ (natural sum.now ≡ natural count.now) }
{
    match grade {
        None => true,
        Some(_) => are_equal(sum, count),
    }
}

/// Returns true only if the counts of all nodes with grades are equal.
fn are_right(grades: &[Option<usize>], sums: &[Natural], counts: &[Natural]) -> bool
    requires grades { length grades.now ≡ length counts.now }
    requires sums { length sums.now ≡ length counts.now }
    ensures { result ≡ true → (u : ℕ → ℕ) →
        ((i : ℕ) → slice_get grades.now i ≡ Some none → u i ≡ 0) →
        dot u (naturals sums.now) ≡ dot u (naturals counts.now) }
{
    'counts: for at in 0..counts.len() {
        if !is_count(grades[at], &sums[at], &counts[at]) {
            return false;
        }
    }
    true
}

/// Returns whether so many ways lead to each node that has a grade.
pub(crate) fn are_counts(
    alloc: Global,
    nodes: &[Node],
    grades: &[Option<usize>],
    counts: &[Natural],
) -> Result<bool, NoMemory>
    ensures { IfOk result (λ yes. yes ≡ true →
        AreCounts nodes.now grades.now (naturals counts.now)) }
{
    if nodes.is_empty() || counts.len() != nodes.len() || grades.len() != nodes.len() {
        return Ok(false);
    }
    let mut into = zeros(alloc, nodes.len())?;
    let one = Natural::one(alloc)?;
    pour(&mut into, 0, &one, 1)?;
    if !hand_all(&mut into, nodes, counts)? {
        return Ok(false);
    }
    Ok(are_right(grades, &into, counts))
}
