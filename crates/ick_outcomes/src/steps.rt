//! Makes the steps of nodes.

ghost use Rattle.std.specs.Prelude.{◌≡◌, ◌-◌, ◌<◌, OnOk, IfOk, IfErr, Some};
ghost use Rattle.ick_backtrack.specs.Asked.{finish_of};
ghost use Rattle.ick_outcomes.specs.Accounts.{AreOver, ahead};
ghost use Rattle.ick_outcomes.specs.Programs.{ask};
ghost use Rattle.ick_outcomes.specs.Searches.{Adds, IsFiled, Waits, asking};
ghost use Rattle.ick_outcomes.specs.Seen.{pending_of};

use crate::bucket::admit;
use crate::filing::add_outcome;
use crate::node::{choose, choose_from, close, pass};
use crate::pending::Node;
use crate::search::{Search, find_bucket};
use crate::states::States;
use ick_backtrack::{Ask, End};
use ick_bits::NoMemory;

/// Returns the chance of the statement that is met, if it asks for a choice, or `None` if nothing is
/// asked. If the runs that lead to the node end there, returns how.
fn next_chance<'c, P: States<'c>>(program: &P, node: &Node<P::State>) -> Result<Option<u8>, End<'c>>
    requires { P.suits program.now node.now.state }
    ensures asks { IfOk result (λ chance.
        ask (P.seen program.now node.now.state).program (P.seen program.now node.now.state).state
        ≡ asking chance) }
    ensures left { OnOk result (0 < node.now.left) }
    ensures over { IfErr result (λ end.
        AreOver (pending_of (P.seen program.now) node.now) (finish_of end)) }
{
    match program.asks(&node.state) {
        Ask::Ended(end) => Err(end),
        Ask::Plain => within_limit(program, node, None),
        Ask::Choice(chance) => within_limit(program, node, Some(chance)),
    }
}

/// Returns the chance that is given, or `Limit` if a node that goes on has no step left.
fn within_limit<'c, P: States<'c>>(
    program: &P,
    node: &Node<P::State>,
    chance: Option<u8>,
) -> Result<Option<u8>, End<'c>>
    requires { ask (P.seen program.now node.now.state).program
        (P.seen program.now node.now.state).state ≡ asking chance }
    ensures same { IfOk result (λ kept. kept ≡ chance) }
    ensures left { OnOk result (0 < node.now.left) }
    ensures over { IfErr result (λ end.
        AreOver (pending_of (P.seen program.now) node.now) (finish_of end)) }
{
    if node.left == 0 {
        return Err(End::Limit);
    }
    Ok(chance)
}

/// Lets a node wait in the bucket of its number of steps left.
// A node is large, and a call of its own would copy it once more.
#[inline(always)]
fn wait<'c, P: States<'c>>(
    search: &mut Search<P::State>,
    program: &P,
    node: Node<P::State>,
) -> Result<(), NoMemory>
    requires filed { IsFiled (P.seen program.now) (P.suits program.now) search.old }
    requires node { Waits (P.seen program.now) (P.suits program.now) node }
    ensures { OnOk result (Adds (P.seen program.now) (P.suits program.now)
        (λ q. ahead q (pending_of (P.seen program.now) node)) node.left search.old search.new) }
{
    let at = find_bucket(search.alloc, &mut search.buckets, node.left, search.room)?;
    admit(
        search.alloc,
        program,
        &mut search.buckets[at],
        &mut search.count,
        node,
    )
}

/// Adds a node at which its runs end to the rows.
// A node is large, and a call of its own would copy it once more.
#[inline(always)]
fn finish<'c, P: States<'c>>(
    search: &mut Search<P::State>,
    program: &P,
    node: Node<P::State>,
    end: End<'c>,
) -> Result<(), NoMemory>
    requires filed { IsFiled (P.seen program.now) (P.suits program.now) search.old }
    requires over { AreOver (pending_of (P.seen program.now) node) (finish_of end) }
    ensures { OnOk result (Adds (P.seen program.now) (P.suits program.now)
        (λ q. ahead q (pending_of (P.seen program.now) node)) node.left search.old search.new) }
{
    let row = close(search.alloc, program, node, end)?;
    add_outcome(search.alloc, &mut search.table, row)?;
    Ok(())
}

/// Adds a node to the rows if its runs end there, and else lets it wait.
pub(crate) fn settle<'c, P: States<'c>>(
    search: &mut Search<P::State>,
    program: &P,
    node: Node<P::State>,
) -> Result<(), NoMemory>
    requires filed { IsFiled (P.seen program.now) (P.suits program.now) search.old }
    requires node { P.suits program.now node.state }
    ensures { OnOk result (Adds (P.seen program.now) (P.suits program.now)
        (λ q. ahead q (pending_of (P.seen program.now) node)) node.left search.old search.new) }
{
    match next_chance(program, &node) {
        Ok(chance) => {
            let mut node = node;
            node.chance = chance;
            wait(search, program, node)
        }
        Err(end) => finish(search, program, node, end),
    }
}

/// Settles the two nodes after the choice of a node that asks for one.
fn branch<'c, P: States<'c>>(
    search: &mut Search<P::State>,
    program: &P,
    tools: &mut P::Tools,
    node: Node<P::State>,
    chance: u8,
) -> Result<(), NoMemory>
    requires tools { P.serves program.now tools.old }
    requires filed { IsFiled (P.seen program.now) (P.suits program.now) search.old }
    requires node { Waits (P.seen program.now) (P.suits program.now) node }
    requires chance { node.chance ≡ Some chance }
    ensures adds { OnOk result (Adds (P.seen program.now) (P.suits program.now)
        (λ q. ahead q (pending_of (P.seen program.now) node)) (node.left - 1) search.old
        search.new) }
    ensures tools { P.serves program.now tools.new }
{
    let zero = choose_from(search.alloc, program, tools, &node, chance, false)?;
    let one = choose(program, tools, node, chance, true)?;
    settle(search, program, zero)?;
    settle(search, program, one)
}

/// Makes the next step of a node that waited, and the steps behind it while nothing is asked.
/// Settles each node to which they lead.
pub(crate) fn advance<'c, P: States<'c>>(
    search: &mut Search<P::State>,
    program: &P,
    tools: &mut P::Tools,
    node: Node<P::State>,
) -> Result<(), NoMemory>
    requires tools { P.serves program.now tools.old }
    requires filed { IsFiled (P.seen program.now) (P.suits program.now) search.old }
    requires node { Waits (P.seen program.now) (P.suits program.now) node }
    ensures adds { OnOk result (Adds (P.seen program.now) (P.suits program.now)
        (λ q. ahead q (pending_of (P.seen program.now) node)) (node.left - 1) search.old
        search.new) }
    ensures tools { P.serves program.now tools.new }
{
    match node.chance {
        Some(chance) => branch(search, program, tools, node, chance),
        None => {
            let next = pass(program, tools, node)?;
            settle(search, program, next)
        }
    }
}
