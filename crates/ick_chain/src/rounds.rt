//! Finds rounds of nodes, and ways to them and from them. Nothing rests on it, because what is
//! found is followed again.

use crate::chain::Node;
use crate::grading::fork_at;
use crate::ways::{Ways, find_ways};
use ick_bits::NoMemory;
use std::alloc::Global;

/// Choices that lead to a node, choices that lead from it to itself, and choices that lead on.
#[derive(Drop)]
pub(crate) struct Round {
    pub(crate) at: usize,
    pub(crate) before: Vec<bool>,
    pub(crate) around: Vec<bool>,
    pub(crate) behind: Vec<bool>,
}

/// Ways to all nodes; for each node without a grade a source that has none either; and for each
/// node that isn't on a round of such sources the source by which it was found from one.
#[derive(Drop)]
pub(crate) struct Rounds {
    ways: Ways,
    sources: Vec<Option<usize>>,
    found: Vec<Option<usize>>,
}

/// Returns the number at an index, or `None` if there is none.
fn number_at(numbers: &[Option<usize>], at: usize) -> Option<usize> {
    if at < numbers.len() {
        return numbers[at];
    }
    None
}

/// Returns the nodes to which an edge of a node leads: one, or two with a choice.
fn targets(nodes: &[Node], at: usize) -> (Option<usize>, Option<usize>) {
    match fork_at(nodes, at) {
        Some(fork) => (Some(fork.zero.to), (fork.chance > 0).then_some(fork.one.to)),
        None => (None, None),
    }
}

/// Notes a source of a node, if the node has no grade and no source yet.
fn note_source(
    sources: &mut [Option<usize>],
    grades: &[Option<usize>],
    from: usize,
    to: Option<usize>,
) {
    if let Some(at) = to {
        if at < sources.len() && at < grades.len() && grades[at].is_none() {
            if sources[at].is_none() {
                sources[at] = Some(from);
            }
        }
    }
}

/// Returns so many times `None`.
fn nones(alloc: Global, count: usize) -> Result<Vec<Option<usize>>, NoMemory> {
    let mut nones = Vec::new(alloc);
    'nones: for none in 0..count {
        nones.push(None)?;
    }
    Ok(nones)
}

/// Returns for each node without a grade a source that has none.
fn find_sources(
    alloc: Global,
    nodes: &[Node],
    grades: &[Option<usize>],
) -> Result<Vec<Option<usize>>, NoMemory> {
    let mut sources = nones(alloc, nodes.len())?;
    'nodes: for at in 0..nodes.len() {
        if at < grades.len() && grades[at].is_none() {
            let (zero, one) = targets(nodes, at);
            note_source(&mut sources, grades, at, zero);
            note_source(&mut sources, grades, at, one);
        }
    }
    Ok(sources)
}

/// Marks the nodes from which sources lead back to a node, itself among them.
fn mark_round(marks: &mut [bool], sources: &[Option<usize>], node: usize) {
    let mut at = node;
    'nodes: for turn in 0..sources.len() {
        if at >= marks.len() || marks[at] {
            return;
        }
        marks[at] = true;
        match number_at(sources, at) {
            Some(from) => at = from,
            None => return,
        }
    }
}

/// Goes back from a node by sources to a node that was passed before, and notes in `turns` that
/// nodes are passed in this turn. Returns the node, if it was passed in this turn.
fn go_back(
    turns: &mut [usize],
    sources: &[Option<usize>],
    node: usize,
    turn: usize,
) -> Option<usize> {
    let mut at = node;
    'nodes: for step in 0..sources.len() {
        if at >= turns.len() {
            return None;
        }
        if turns[at] != usize::MAX {
            return (turns[at] == turn).then_some(at);
        }
        turns[at] = turn;
        match number_at(sources, at) {
            Some(from) => at = from,
            None => return None,
        }
    }
    (at < turns.len() && turns[at] == turn).then_some(at)
}

/// Returns for each node whether sources lead round to it.
fn find_marks(alloc: Global, sources: &[Option<usize>]) -> Result<Vec<bool>, NoMemory> {
    let mut marks = Vec::new(alloc);
    let mut turns = Vec::new(alloc);
    'nodes: for at in 0..sources.len() {
        marks.push(false)?;
        turns.push(usize::MAX)?;
    }
    'turns: for turn in 0..sources.len() {
        if let Some(at) = go_back(&mut turns, sources, turn, turn) {
            mark_round(&mut marks, sources, at);
        }
    }
    Ok(marks)
}

/// Notes by which source a node was found, unless it is on a round or was found before.
fn reach(
    found: &mut [Option<usize>],
    order: &mut Vec<usize>,
    marks: &[bool],
    from: usize,
    to: Option<usize>,
) -> Result<(), NoMemory> {
    if let Some(at) = to {
        if at < found.len() && at < marks.len() && !marks[at] && found[at].is_none() {
            found[at] = Some(from);
            order.push(at)?;
        }
    }
    Ok(())
}

/// Finds all nodes from rounds by breadth.
fn find_behind(
    alloc: Global,
    nodes: &[Node],
    marks: &[bool],
) -> Result<Vec<Option<usize>>, NoMemory> {
    let mut found = nones(alloc, nodes.len())?;
    let mut order = Vec::new(alloc);
    'marks: for at in 0..marks.len() {
        if marks[at] {
            order.push(at)?;
        }
    }
    'turns: for turn in 0..nodes.len() {
        if turn < order.len() {
            let at = order[turn];
            let (zero, one) = targets(nodes, at);
            reach(&mut found, &mut order, marks, at, zero)?;
            reach(&mut found, &mut order, marks, at, one)?;
        }
    }
    Ok(found)
}

/// Finds the rounds of nodes without grades.
pub(crate) fn find_rounds(
    alloc: Global,
    nodes: &[Node],
    grades: &[Option<usize>],
) -> Result<Rounds, NoMemory> {
    let ways = find_ways(alloc, nodes)?;
    let sources = find_sources(alloc, nodes, grades)?;
    let marks = find_marks(alloc, &sources)?;
    let found = find_behind(alloc, nodes, &marks)?;
    Ok(Rounds {
        ways,
        sources,
        found,
    })
}

/// Appends the choice by which a node leads to another, if it asks for one.
fn push_choice(
    choices: &mut Vec<bool>,
    nodes: &[Node],
    from: usize,
    to: usize,
) -> Result<(), NoMemory> {
    if let (Some(zero), Some(_)) = targets(nodes, from) {
        choices.push(zero != to)?;
    }
    Ok(())
}

/// Returns choices in the other order.
fn turned(alloc: Global, choices: &[bool]) -> Result<Vec<bool>, NoMemory> {
    let mut turned = Vec::new(alloc);
    'choices: for back in 0..choices.len() {
        turned.push(choices[choices.len() - 1 - back])?;
    }
    Ok(turned)
}

impl Rounds {
    /// Returns the node of a round from which a node was found, and the choices between them.
    fn behind(
        &self,
        alloc: Global,
        nodes: &[Node],
        end: usize,
    ) -> Result<(usize, Vec<bool>), NoMemory> {
        let mut at = end;
        let mut back = Vec::new(alloc);
        'nodes: for step in 0..nodes.len() {
            match number_at(&self.found, at) {
                Some(from) => {
                    push_choice(&mut back, nodes, from, at)?;
                    at = from;
                }
                None => break,
            }
        }
        Ok((at, turned(alloc, &back)?))
    }

    /// Returns the choices that lead from a node of a round to itself.
    fn around(&self, alloc: Global, nodes: &[Node], node: usize) -> Result<Vec<bool>, NoMemory> {
        let mut at = node;
        let mut back = Vec::new(alloc);
        'nodes: for step in 0..nodes.len() {
            match number_at(&self.sources, at) {
                Some(from) => {
                    push_choice(&mut back, nodes, from, at)?;
                    at = from;
                }
                None => break,
            }
            if at == node {
                break;
            }
        }
        turned(alloc, &back)
    }

    /// Returns a round, with choices that lead from it to a node.
    pub(crate) fn round(
        &self,
        alloc: Global,
        nodes: &[Node],
        end: usize,
    ) -> Result<Round, NoMemory> {
        let (at, behind) = self.behind(alloc, nodes, end)?;
        Ok(Round {
            at,
            before: self.ways.choices(alloc, at)?,
            around: self.around(alloc, nodes, at)?,
            behind,
        })
    }
}
