//! Nodes that have equally many steps left, and how equal ones are merged.

ghost use Rattle.std.specs.Prelude.{◌≡◌, ◌+◌, ◌<◌, ◌≤◌, true, false, [], length, slice_index_or};
ghost use Rattle.std.specs.Prelude.{OnOk, IfSome};
ghost use Rattle.std.specs.List.{All};
ghost use Rattle.ick_numbers.specs.Values.{natural};
ghost use Rattle.ick_outcomes.specs.Accounts.{CanMerge, Configuration};
ghost use Rattle.ick_outcomes.specs.Packed.{choices_of, IsEarlier};
ghost use Rattle.ick_outcomes.specs.Searches.{IsLevel, Joins, StaysAt, Waits};
ghost use Rattle.ick_outcomes.specs.Seen.{pending_of};
ghost use Rattle.ick_outcomes.specs.Tallies.{lesser};

use crate::choices::earlier;
use crate::hints::Hints;
use crate::pending::Node;
use crate::states::States;
use ick_bits::NoMemory;
use std::alloc::Global;

/// The nodes that wait and have so many steps left, and hints where an equal one may be among them.
#[derive(Drop)]
pub(crate) struct Bucket<S: Drop> {
    pub(crate) left: u32,
    pub(crate) nodes: Vec<Node<S>>,
    pub(crate) hints: Hints,
}

impl<S: Drop> Bucket<S> {
    /// Returns a bucket without nodes, whose hints get room for so many.
    pub(crate) fn new(alloc: Global, left: u32, room: usize) -> Bucket<S>
        ensures left { result.left ≡ left }
        ensures none { result.nodes.items ≡ [] }
    {
        Bucket {
            left,
            nodes: Vec::new(alloc),
            hints: Hints::new(alloc, room),
        }
    }
}

/// Returns whether the choices of the first node are the earlier ones, or `None` if the nodes can't
/// be merged.
fn can_merge<'c, P: States<'c>>(
    program: &P,
    one: &Node<P::State>,
    more: &Node<P::State>,
) -> Option<bool>
    requires { one.now.left ≡ more.now.left }
    ensures same { IfSome result (λ kept. CanMerge (pending_of (P.seen program.now) one.now)
        (pending_of (P.seen program.now) more.now)) }
    ensures kept { IfSome result
        (IsEarlier (choices_of one.now.choices) (choices_of more.now.choices)) }
{
    if program.same(&one.state, &more.state) {
        return earlier(&one.choices, &more.choices);
    }
    None
}

/// Returns the index that was hinted at, and whether the choices of the node there are the earlier
/// ones, if it can be merged with another.
fn find_node<'c, P: States<'c>>(
    program: &P,
    nodes: &[Node<P::State>],
    hint: Option<usize>,
    more: &Node<P::State>,
) -> Option<(usize, bool)>
    requires { All (λ (n : Node P.State). n.left ≡ more.now.left) nodes.now }
    ensures same { IfSome result (λ p. (d : Node P.State) →
        CanMerge (pending_of (P.seen program.now) (slice_index_or nodes.now p.0 d))
        (pending_of (P.seen program.now) more.now)) }
    ensures kept { IfSome result (λ p. (d : Node P.State) →
        IsEarlier (choices_of (slice_index_or nodes.now p.0 d).choices)
        (choices_of more.now.choices) p.1) }
    ensures within { IfSome result (λ p. p.0 < length nodes.now) }
{
    if let Some(at) = hint {
        if at < nodes.len() {
            return match can_merge(program, &nodes[at], more) {
                Some(kept) => Some((at, kept)),
                None => None,
            };
        }
    }
    None
}

/// Merges a node into another with the same state. `kept` says that the choices of the node that is
/// there already are the earlier ones.
#[tactic(auto, using(crate::proofs::Uses::sum_fits, crate::proofs::Uses::merge_sum))]
fn merge<S: Drop>(
    alloc: Global,
    one: &mut Node<S>,
    more: Node<S>,
    kept: bool,
) -> Result<(), NoMemory>
    requires left { one.old.left ≡ more.left }
    requires kept { kept ≡ true → lesser (choices_of one.old.choices) (choices_of more.choices)
        ≡ choices_of one.old.choices }
    requires given { kept ≡ false → lesser (choices_of one.old.choices) (choices_of more.choices)
        ≡ choices_of more.choices }
    ensures merged { OnOk result ((seen : S → Configuration) →
        pending_of seen one.new ≡ record (pending_of seen one.old) {
          count = natural one.old.count + natural more.count;
          weight = (pending_of seen one.old).weight + (pending_of seen more).weight;
          choices = lesser (choices_of one.old.choices) (choices_of more.choices);
        }) }
    ensures stays { OnOk result (StaysAt one.old one.new) }
{
    one.count = more.count.plus(&one.count)?;
    one.weight = more.weight.plus(&one.weight, alloc)?;
    if !kept {
        one.choices = more.choices;
    }
    Ok(())
}

/// Adds a node to the bucket of its number of steps left, or merges it into one there. Adds 1 to
/// the number of nodes that wait, unless the node is merged.
// A node is large, and a call of its own would copy it once more.
#[inline(always)]
pub(crate) fn admit<'c, P: States<'c>>(
    alloc: Global,
    program: &P,
    bucket: &mut Bucket<P::State>,
    count: &mut usize,
    node: Node<P::State>,
) -> Result<(), NoMemory>
    requires node { Waits (P.seen program.now) (P.suits program.now) node }
    requires left { node.left ≡ bucket.old.left }
    requires level { IsLevel bucket.old }
    ensures joins { OnOk result (Joins (P.seen program.now) (P.suits program.now) node bucket.old
        bucket.new) }
    ensures few { OnOk result (count.new + length bucket.old.nodes.items
        ≤ count.old + length bucket.new.nodes.items) }
{
    let hash = program.hash(&node.state);
    let hint = bucket.hints.find(hash);
    match find_node(program, &bucket.nodes, hint, &node) {
        Some((at, kept)) => {
            merge(alloc, &mut bucket.nodes[at], node, kept)?;
            Ok(())
        }
        None => {
            let at = bucket.nodes.len();
            bucket.nodes.push(node)?;
            bucket.hints.note(hash, at)?;
            *count = count.saturating_add(1);
            Ok(())
        }
    }
}
