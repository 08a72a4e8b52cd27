//! Counts the ways to the nodes of a chain. Nothing rests on it, because the counts are checked.

use crate::chain::{Fork, Node};
use ick_bits::NoMemory;
use ick_numbers::Natural;
use std::alloc::Global;

/// For each node its grade, if no way to it has a cycle, and how many ways lead to it. A node waits
/// for its sources that are left.
#[derive(Drop)]
pub(crate) struct Grading {
    pub(crate) grades: Vec<Option<usize>>,
    pub(crate) counts: Vec<Natural>,
    sources: Vec<usize>,
    least: Vec<usize>,
    ready: Vec<usize>,
}

/// Returns the fork of a node that goes on and may end.
pub(crate) fn fork_at(nodes: &[Node], at: usize) -> Option<Fork> {
    if at >= nodes.len() {
        return None;
    }
    match nodes[at] {
        Node::Ends => None,
        Node::Goes(fork) => Some(fork),
        Node::Stuck(_) => None,
    }
}

/// Counts one more source of a node.
fn add_source(sources: &mut [usize], to: usize) {
    if to < sources.len() {
        sources[to] = sources[to].wrapping_add(1);
    }
}

/// Returns a grading in which no node has a grade.
fn ungraded(alloc: Global, nodes: &[Node]) -> Result<Grading, NoMemory> {
    let mut grading = Grading {
        grades: Vec::new(alloc),
        counts: Vec::new(alloc),
        sources: Vec::new(alloc),
        least: Vec::new(alloc),
        ready: Vec::new(alloc),
    };
    'nodes: for at in 0..nodes.len() {
        grading.grades.push(None)?;
        grading.counts.push(Natural::zero(alloc))?;
        grading.sources.push(0)?;
        grading.least.push(0)?;
    }
    Ok(grading)
}

/// Counts the sources of all nodes.
fn count_sources(grading: &mut Grading, nodes: &[Node]) {
    'nodes: for at in 0..nodes.len() {
        if let Some(fork) = fork_at(nodes, at) {
            add_source(&mut grading.sources, fork.zero.to);
            if fork.chance > 0 {
                add_source(&mut grading.sources, fork.one.to);
            }
        }
    }
}

/// Lets the ways to a node go on to another.
fn go_on(grading: &mut Grading, at: usize, to: usize) -> Result<(), NoMemory> {
    let count = grading.counts.len();
    if at >= count || to >= count || to >= grading.sources.len() || grading.sources[to] == 0 {
        return Ok(());
    }
    let sum = grading.counts[to].copy()?.plus(&grading.counts[at])?;
    grading.counts[to] = sum;
    grading.sources[to] = grading.sources[to] - 1;
    if at < grading.least.len() && to < grading.least.len() {
        let next = grading.least[at].wrapping_add(1);
        if grading.least[to] < next {
            grading.least[to] = next;
        }
    }
    if grading.sources[to] == 0 {
        grading.ready.push(to)?;
    }
    Ok(())
}

/// Grades a node, and lets the ways to it go on.
fn grade(grading: &mut Grading, nodes: &[Node], at: usize) -> Result<(), NoMemory> {
    if at < grading.grades.len() && at < grading.least.len() {
        grading.grades[at] = Some(grading.least[at]);
    }
    if let Some(fork) = fork_at(nodes, at) {
        go_on(grading, at, fork.zero.to)?;
        if fork.chance > 0 {
            go_on(grading, at, fork.one.to)?;
        }
    }
    Ok(())
}

/// Grades all nodes to which no way has a cycle, and counts the ways to them.
pub(crate) fn grade_all(alloc: Global, nodes: &[Node]) -> Result<Grading, NoMemory> {
    let mut grading = ungraded(alloc, nodes)?;
    count_sources(&mut grading, nodes);
    'first: for at in 0..nodes.len() {
        if at < grading.sources.len() && grading.sources[at] == 0 {
            grading.ready.push(at)?;
        }
    }
    if !grading.counts.is_empty() {
        grading.counts[0] = Natural::one(alloc)?;
    }
    'turns: for turn in 0..nodes.len() {
        if turn < grading.ready.len() {
            let at = grading.ready[turn];
            grade(&mut grading, nodes, at)?;
        }
    }
    Ok(grading)
}
