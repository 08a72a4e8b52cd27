//! Finds choices that lead to the nodes of a chain. Nothing rests on it, because what is found is
//! followed and checked again.

ghost use Rattle.std.specs.Prelude.{◌≡◌, [], ◌∷◌, ◌++◌, IfOk, OnOk};
ghost use Rattle.ick_chain.specs.Ranks.{HaveNumbers};

use crate::chain::Node;
use crate::words::{Labels, Word, label_at};
use ick_bits::NoMemory;
use std::alloc::Global;

/// How a node was found: first of all, or from another node by a choice or by none.
#[derive(Clone, Copy)]
enum Step {
    Start,
    Plain,
    Zero,
    One,
}

/// How a node was found, and from which node.
#[derive(Clone, Copy)]
struct Way {
    from: usize,
    step: Step,
}

/// A node that is still to be found.
#[derive(Clone, Copy)]
struct Next {
    to: usize,
    way: Way,
}

/// The number of a node's list of choices by breadth, and with which number it was found by depth.
#[derive(Clone, Copy)]
pub(crate) struct Rank {
    pub(crate) breadth: usize,
    pub(crate) depth: usize,
}

/// How each node was found, and the nodes in the order in which they were found.
#[derive(Drop)]
pub(crate) struct Ways {
    ways: Vec<Option<Way>>,
    order: Vec<usize>,
}

/// Returns where a node leads that asks for no choice.
fn plain_from(nodes: &[Node], at: usize) -> Option<usize> {
    if at >= nodes.len() {
        return None;
    }
    match nodes[at] {
        Node::Ends => None,
        Node::Goes(fork) => (fork.chance == 0).then_some(fork.zero.to),
        Node::Stuck(fork) => (fork.chance == 0).then_some(fork.zero.to),
    }
}

/// Returns where the choices of a node lead.
fn choices_from(nodes: &[Node], at: usize) -> Option<(usize, usize)> {
    if at >= nodes.len() {
        return None;
    }
    match nodes[at] {
        Node::Ends => None,
        Node::Goes(fork) => (fork.chance > 0).then_some((fork.zero.to, fork.one.to)),
        Node::Stuck(fork) => (fork.chance > 0).then_some((fork.zero.to, fork.one.to)),
    }
}

/// Notes how a node was found, and the nodes that are found from it without a choice.
fn reach(
    ways: &mut Ways,
    nodes: &[Node],
    from: usize,
    step: Step,
    to: usize,
) -> Result<(), NoMemory> {
    let mut way = Way { from, step };
    let mut at = to;
    'plain: for passed in 0..nodes.len() {
        if at >= ways.ways.len() || ways.ways[at].is_some() {
            return Ok(());
        }
        ways.ways[at] = Some(way);
        ways.order.push(at)?;
        match plain_from(nodes, at) {
            Some(next) => {
                way = Way {
                    from: at,
                    step: Step::Plain,
                };
                at = next;
            }
            None => return Ok(()),
        }
    }
    Ok(())
}

/// Returns ways to no node.
fn no_ways(alloc: Global, nodes: &[Node]) -> Result<Ways, NoMemory> {
    let mut ways = Ways {
        ways: Vec::new(alloc),
        order: Vec::new(alloc),
    };
    'nodes: for at in 0..nodes.len() {
        ways.ways.push(None)?;
    }
    Ok(ways)
}

/// Notes how a node was found, unless it was found before, and the nodes that are to be found from
/// it.
fn visit(
    ways: &mut Ways,
    stack: &mut Vec<Next>,
    nodes: &[Node],
    next: Next,
) -> Result<(), NoMemory> {
    let from = next.to;
    if from >= ways.ways.len() || ways.ways[from].is_some() {
        return Ok(());
    }
    ways.ways[from] = Some(next.way);
    ways.order.push(from)?;
    if let Some(to) = plain_from(nodes, from) {
        let step = Step::Plain;
        stack.push(Next {
            to,
            way: Way { from, step },
        })?;
    }
    if let Some((zero, one)) = choices_from(nodes, from) {
        let step = Step::One;
        stack.push(Next {
            to: one,
            way: Way { from, step },
        })?;
        let step = Step::Zero;
        stack.push(Next {
            to: zero,
            way: Way { from, step },
        })?;
    }
    Ok(())
}

/// Finds all nodes from the first one by depth, and where 0 leads before where 1 does. If no way to
/// a node has a cycle, the choices that lead to it are the first of all that do.
pub(crate) fn find_first(alloc: Global, nodes: &[Node]) -> Result<Ways, NoMemory> {
    let mut ways = no_ways(alloc, nodes)?;
    let mut stack = Vec::new(alloc);
    let step = Step::Start;
    stack.push(Next {
        to: 0,
        way: Way { from: 0, step },
    })?;
    'turns: for turn in 0..usize::MAX {
        match stack.pop() {
            Some(next) => visit(&mut ways, &mut stack, nodes, next)?,
            None => return Ok(ways),
        }
    }
    Ok(ways)
}

/// Finds all nodes from the first one by breadth. The choices that lead to a node are the fewest,
/// and the first of these.
pub(crate) fn find_ways(alloc: Global, nodes: &[Node]) -> Result<Ways, NoMemory> {
    let mut ways = no_ways(alloc, nodes)?;
    reach(&mut ways, nodes, 0, Step::Start, 0)?;
    'turns: for turn in 0..nodes.len() {
        if turn < ways.order.len() {
            let at = ways.order[turn];
            if let Some((zero, one)) = choices_from(nodes, at) {
                reach(&mut ways, nodes, at, Step::Zero, zero)?;
                reach(&mut ways, nodes, at, Step::One, one)?;
            }
        }
    }
    Ok(ways)
}

impl Ways {
    /// Returns the node that was found with this number.
    pub(crate) fn node(&self, rank: usize) -> usize {
        if rank < self.order.len() {
            return self.order[rank];
        }
        0
    }

    /// Returns with which number each node was found.
    pub(crate) fn numbers(&self, alloc: Global) -> Result<Vec<usize>, NoMemory> {
        let mut numbers = Vec::new(alloc);
        'nodes: for at in 0..self.ways.len() {
            numbers.push(usize::MAX)?;
        }
        'order: for number in 0..self.order.len() {
            let at = self.order[number];
            if at < numbers.len() {
                numbers[at] = number;
            }
        }
        Ok(numbers)
    }

    /// Returns the choices that lead to a node.
    pub(crate) fn choices(&self, alloc: Global, to: usize) -> Result<Vec<bool>, NoMemory> {
        let back = self.choices_back(alloc, to)?;
        let mut choices = Vec::new(alloc);
        'back: for at in 0..back.len() {
            choices.push(back[back.len() - 1 - at])?;
        }
        Ok(choices)
    }

    /// Returns the choices that lead to a node, the last one first.
    fn choices_back(&self, alloc: Global, to: usize) -> Result<Vec<bool>, NoMemory> {
        let mut back = Vec::new(alloc);
        let mut at = to;
        'ways: for passed in 0..self.ways.len() {
            if at >= self.ways.len() {
                return Ok(back);
            }
            match self.ways[at] {
                None => return Ok(back),
                Some(way) => {
                    match way.step {
                        Step::Start => return Ok(back),
                        Step::Plain => {}
                        Step::Zero => back.push(false)?,
                        Step::One => back.push(true)?,
                    }
                    at = way.from;
                }
            }
        }
        Ok(back)
    }
}

/// Returns labels with the empty list, and without labels of nodes.
fn no_labels(alloc: Global, count: usize) -> Result<Labels, NoMemory> {
    let mut labels = Labels {
        words: Vec::new(alloc),
        of: Vec::new(alloc),
        ends: Vec::new(alloc),
    };
    'nodes: for at in 0..count {
        labels.of.push(0)?;
    }
    add_word(&mut labels, 0, false)?;
    Ok(labels)
}

/// Appends a list of choices: that of a node, and one more choice.
fn add_word(labels: &mut Labels, from: usize, choice: bool) -> Result<usize, NoMemory> {
    let number = labels.words.len();
    let parent = if from < labels.of.len() {
        labels.of[from]
    } else {
        0
    };
    labels.words.push(Word { parent, choice })?;
    labels.ends.push(0)?;
    Ok(number)
}

/// Labels a node that was found so.
fn label(labels: &mut Labels, at: usize, way: Way) -> Result<(), NoMemory> {
    let number = match way.step {
        Step::Start => 0,
        Step::Plain => {
            if way.from < labels.of.len() {
                labels.of[way.from]
            } else {
                0
            }
        }
        Step::Zero => add_word(labels, way.from, false)?,
        Step::One => add_word(labels, way.from, true)?,
    };
    if at < labels.of.len() && number < labels.ends.len() {
        labels.of[at] = number;
        labels.ends[number] = at;
    }
    Ok(())
}

/// Returns for each node the choices that lead to it on its way.
pub(crate) fn labels(alloc: Global, ways: &Ways) -> Result<Labels, NoMemory> {
    let mut labels = no_labels(alloc, ways.ways.len())?;
    'order: for number in 0..ways.order.len() {
        let at = ways.order[number];
        if at < ways.ways.len() {
            if let Some(way) = ways.ways[at] {
                label(&mut labels, at, way)?;
            }
        }
    }
    Ok(labels)
}

/// Returns the number at an index, or another if there is none.
fn number_or(numbers: &[usize], at: usize, other: usize) -> usize {
    if at < numbers.len() {
        return numbers[at];
    }
    other
}

/// Appends a rank.
pub(crate) fn add_rank(ranks: &mut Vec<Rank>, rank: Rank) -> Result<(), NoMemory>
    ensures { OnOk result (ranks.new.items ≡ ranks.old.items ++ rank ∷ []) }
{
    ranks.push(rank)?;
    Ok(())
}

/// Returns the ranks of all nodes.
#[tactic(auto, using(crate::proofs::Ranking::numbers_none))]
pub(crate) fn ranks(alloc: Global, labels: &Labels, first: &Ways) -> Result<Vec<Rank>, NoMemory>
    ensures { IfOk result (λ ranks. HaveNumbers labels.now.of.items ranks.items) }
{
    let depths = first.numbers(alloc)?;
    let mut ranks = Vec::new(alloc);
    'nodes: for at in 0..labels.of.len() {
        let breadth = label_at(&labels.of, at);
        let depth = number_or(&depths, at, breadth);
        add_rank(&mut ranks, Rank { breadth, depth })?;
    }
    Ok(ranks)
}
