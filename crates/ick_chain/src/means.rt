//! Checks the mean numbers of steps from the nodes of a chain.

ghost use Rattle.std.specs.Prelude.{◌≡◌, ℕ, ◌+◌, ◌*◌, ◌<◌, ◌≤◌, true, length, slice_index_or, IfOk};
ghost use Rattle.ick_numbers.specs.Values.{natural};
ghost use Rattle.ick_chain.specs.declared.chain.Node.TheVariants.{Goes as going};
ghost use Rattle.ick_chain.specs.Chains.{IsInside, out, steps_at};
ghost use Rattle.ick_chain.specs.Means.{IsFitting, FitAll, value_at};

use crate::chain::{Fork, Node};
use crate::visits::{is_hundredfold, is_inside};
use ick_bits::NoMemory;
use ick_numbers::Natural;

/// How many steps an edge has at most.
const MOST_STEPS: u32 = 1_000_000_000;

/// Returns so many hundredths of the steps of an edge and the mean behind it.
fn along(parts: &Natural, mean: &Natural, steps: u32, part: u8) -> Result<Natural, NoMemory>
    requires { steps ≤ 1000000000 }
    ensures { IfOk result (λ n. natural n
        ≡ (natural parts.now * steps + natural mean.now) * part) }
{
    let made = parts.copy()?.times(steps)?;
    let all = made.plus(mean)?;
    all.times(u32::from(part))
}

/// Returns whether the mean at a fork is that of what is behind it.
fn fits_fork(
    parts: &Natural,
    means: &[Natural],
    mean: &Natural,
    fork: Fork,
) -> Result<bool, NoMemory>
    requires { IsInside fork (length means.now) }
    ensures { IfOk result (λ yes. yes ≡ true → 100 * natural mean.now
        ≡ natural parts.now * steps_at (going fork) + out (value_at means.now) fork) }
{
    if fork.zero.steps > MOST_STEPS || fork.one.steps > MOST_STEPS {
        return Ok(false);
    }
    let zero = along(
        parts,
        &means[fork.zero.to],
        fork.zero.steps,
        100 - fork.chance,
    )?;
    let one = along(parts, &means[fork.one.to], fork.one.steps, fork.chance)?;
    let sum = zero.plus(&one)?;
    let is_mean = is_hundredfold(&sum, mean)?;
    Ok(is_mean)
}

/// Returns whether the mean at a node fits the node.
fn fits(parts: &Natural, means: &[Natural], mean: &Natural, node: Node) -> Result<bool, NoMemory>
    ensures { IfOk result (λ yes. yes ≡ true →
        IsFitting (natural parts.now) means.now (natural mean.now) node) }
{
    match node {
        Node::Ends => Ok(mean.digits.is_empty()),
        Node::Stuck(_) => Ok(false),
        Node::Goes(fork) => {
            if !is_inside(fork, means.len()) {
                return Ok(false);
            }
            fits_fork(parts, means, mean, fork)
        }
    }
}

/// Returns whether `means` are the mean numbers of steps from the nodes, in so many parts, and no
/// node is stuck.
pub fn are_means(parts: &Natural, nodes: &[Node], means: &[Natural]) -> Result<bool, NoMemory>
    ensures { IfOk result (λ yes. yes ≡ true → FitAll nodes.now (natural parts.now) means.now) }
{
    if nodes.len() != means.len() {
        return Ok(false);
    }
    'nodes: for at in 0..nodes.len() {
        if !fits(parts, means, &means[at], nodes[at])? {
            return Ok(false);
        }
    }
    Ok(true)
}
