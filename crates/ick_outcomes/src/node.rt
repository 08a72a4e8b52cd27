//! Nodes after a step of a node, and the outcome of a node at which its runs end.

ghost use Rattle.std.specs.Prelude.{◌≡◌, ◌*◌, ◌-◌, ◌^◌, ◌<◌, ◌≤◌, IfOk};
ghost use Rattle.ick_backtrack.specs.Asked.{IsGoing, finish_of};
ghost use Rattle.ick_outcomes.specs.Accounts.{GoesOn, chosen, ended_row};
ghost use Rattle.ick_outcomes.specs.Programs.{ask, IsPlain};
ghost use Rattle.ick_outcomes.specs.Seen.{pending_of, row_of};
ghost use Rattle.ick_outcomes.specs.Weights.{part};

use crate::outcome::{Outcome, end_word};
use crate::pending::Node;
use crate::states::States;
use ick_backtrack::End;
use ick_bits::NoMemory;
use std::alloc::Global;

/// Returns the chance, in hundredths, that a statement with this chance is done, or that it is
/// passed over.
fn hundredths(chance: u8, done: bool) -> u8
    requires { chance ≤ 100 }
    ensures is_part { result ≡ part chance done }
    ensures within { result ≤ 100 }
{
    if done { chance } else { 100 - chance }
}

/// Returns the node after a choice, and after the steps behind it while nothing is asked. `chance`
/// is that of the statement that is met.
#[tactic(auto, using(crate::proofs::Uses::part_fits))]
pub(crate) fn choose<'c, P: States<'c>>(
    program: &P,
    tools: &mut P::Tools,
    node: Node<P::State>,
    chance: u8,
    done: bool,
) -> Result<Node<P::State>, NoMemory>
    requires tools { P.serves program.now tools.old }
    requires node { P.suits program.now node.state }
    requires going { IsGoing (ask (P.seen program.now node.state).program
        (P.seen program.now node.state).state) }
    requires chance { chance ≤ 100 }
    requires left { 0 < node.left }
    ensures goes_on { IfOk result (λ n. GoesOn
        (chosen chance (pending_of (P.seen program.now) node) done)
        (pending_of (P.seen program.now) n)) }
    ensures node { IfOk result (λ n. P.suits program.now n.state) }
    ensures tools { P.serves program.now tools.new }
{
    let left = node.left - 1;
    let (state, made) = program.step(tools, node.state, done, left)?;
    let left = left - made;
    let mut choices = node.choices;
    choices.push(done)?;
    let weight = node.weight.part(hundredths(chance, done))?;
    Ok(Node {
        state,
        chance: None,
        left,
        count: node.count,
        weight,
        choices,
    })
}

/// Returns the node after a choice, and after the steps behind it while nothing is asked. The node
/// before it stays. `chance` is that of the statement that is met.
#[tactic(auto, using(crate::proofs::Uses::part_fits))]
pub(crate) fn choose_from<'c, P: States<'c>>(
    alloc: Global,
    program: &P,
    tools: &mut P::Tools,
    node: &Node<P::State>,
    chance: u8,
    done: bool,
) -> Result<Node<P::State>, NoMemory>
    requires tools { P.serves program.now tools.old }
    requires node { P.suits program.now node.now.state }
    requires going { IsGoing (ask (P.seen program.now node.now.state).program
        (P.seen program.now node.now.state).state) }
    requires chance { chance ≤ 100 }
    requires left { 0 < node.now.left }
    ensures goes_on { IfOk result (λ n. GoesOn
        (chosen chance (pending_of (P.seen program.now) node.now) done)
        (pending_of (P.seen program.now) n)) }
    ensures node { IfOk result (λ n. P.suits program.now n.state) }
    ensures tools { P.serves program.now tools.new }
{
    let left = node.left - 1;
    let (state, made) = program.step_from(tools, &node.state, done, left)?;
    let left = left - made;
    let mut choices = node.choices.copy(alloc)?;
    choices.push(done)?;
    let copy = node.weight.copy()?;
    let weight = copy.part(hundredths(chance, done))?;
    Ok(Node {
        state,
        chance: None,
        left,
        count: node.count.copy()?,
        weight,
        choices,
    })
}

/// Makes one step of a node that asks nothing, and the steps behind it while nothing is asked.
pub(crate) fn pass<'c, P: States<'c>>(
    program: &P,
    tools: &mut P::Tools,
    node: Node<P::State>,
) -> Result<Node<P::State>, NoMemory>
    requires tools { P.serves program.now tools.old }
    requires node { P.suits program.now node.state }
    requires left { 0 < node.left }
    requires plain { IsPlain (P.seen program.now node.state).program
        (P.seen program.now node.state).state }
    ensures goes_on { IfOk result (λ m. GoesOn (pending_of (P.seen program.now) node)
        (pending_of (P.seen program.now) m)) }
    ensures fewer { IfOk result (λ m. m.left < node.left) }
    ensures node { IfOk result (λ m. P.suits program.now m.state) }
    ensures tools { P.serves program.now tools.new }
{
    let left = node.left - 1;
    let (state, made) = program.step(tools, node.state, false, left)?;
    let left = left - made;
    Ok(Node {
        state,
        chance: None,
        left,
        count: node.count,
        weight: node.weight,
        choices: node.choices,
    })
}

/// Returns the outcome of a node at which its runs end.
#[tactic(auto, using(crate::proofs::Uses::row_end))]
pub(crate) fn close<'c, P: States<'c>>(
    alloc: Global,
    program: &P,
    node: Node<P::State>,
    end: End<'c>,
) -> Result<Outcome, NoMemory>
    ensures { IfOk result (λ o. row_of o
        ≡ ended_row (pending_of (P.seen program.now) node) (finish_of end.entry)) }
{
    Ok(Outcome {
        output: program.into_output(node.state),
        end: end_word(alloc, end)?,
        count: node.count,
        weight: node.weight,
        first: node.choices.all(alloc)?,
    })
}
