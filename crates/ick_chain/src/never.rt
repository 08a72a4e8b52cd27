//! Weighs the runs that never end.

ghost use Rattle.std.specs.Prelude.{◌≡◌, ◌+◌, length, IfOk};
ghost use Rattle.ick_numbers.specs.Values.{natural, naturals};
ghost use Rattle.ick_chain.specs.Chains.{never, stuck_at};

use crate::chain::Node;
use ick_bits::NoMemory;
use ick_numbers::Natural;
use std::alloc::Global;

/// Adds the visits of a node, if it is stuck.
fn add_stuck(sum: Natural, node: Node, visits: &Natural) -> Result<Natural, NoMemory>
    ensures { IfOk result (λ all. natural all
        ≡ natural sum + stuck_at (natural visits.now) node) }
{
    match node {
        Node::Ends => Ok(sum),
        Node::Goes(_) => Ok(sum),
        Node::Stuck(_) => {
            let all = sum.plus(visits)?;
            Ok(all)
        }
    }
}

/// Returns the visits of all stuck nodes together. The only refusal is out of memory.
#[tactic(auto, using(crate::proofs::RowLaws::never_more))]
pub(crate) fn never_of(
    alloc: Global,
    nodes: &[Node],
    visits: &[Natural],
) -> Result<Natural, NoMemory>
    requires { length visits.now ≡ length nodes.now }
    ensures { IfOk result (λ all. natural all ≡ never nodes.now (naturals visits.now)) }
{
    let mut sum = Natural::zero(alloc);
    'nodes: for at in 0..nodes.len() {
        sum = add_stuck(sum, nodes[at], &visits[at])?;
    }
    Ok(sum)
}
