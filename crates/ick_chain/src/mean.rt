//! Finds the mean number of steps of the runs of a program.

ghost use Rattle.std.specs.Prelude.{◌≡◌, ℕ, List, Some, slice_get, IfOk, IfSome};
ghost use Rattle.ick_code.specs.meaning.State.{State as Meant};
ghost use Rattle.ick_outcomes.specs.Programs.{Program};
ghost use Rattle.ick_numbers.specs.Values.{natural};
ghost use Rattle.ick_chain.specs.Means.{FitAll, IsFirst, IsMeanOf};
ghost use Rattle.ick_chain.specs.Places.{IsFull};

use crate::chain::Node;
use crate::eliminating::{means_modulo, visits_modulo};
use crate::errors::ChainError;
use crate::means::are_means;
use crate::modular::prime_below;
use crate::solving::{MOST_PRIMES, Residues, Solution, add_residues, attempt, no_residues};
use crate::visits::is_some;
use ick_bits::NoMemory;
use ick_numbers::Natural;
use std::alloc::Global;

/// A mean number of steps, in parts.
#[derive(Drop)]
pub struct Mean {
    pub steps: Natural,
    pub parts: Natural,
}

/// Returns whether no node is stuck.
fn none_stuck(nodes: &[Node]) -> bool {
    'nodes: for at in 0..nodes.len() {
        if matches!(nodes[at], Node::Stuck(_)) {
            return false;
        }
    }
    true
}

/// Returns the means from all nodes that have the residues, if they are the means.
fn checked(alloc: Global, nodes: &[Node], residues: &Residues) -> Result<Option<Solution>, NoMemory>
    ensures { IfOk result (λ found. IfSome found (λ means.
        FitAll nodes.now (natural means.parts) means.numbers.items)) }
{
    match attempt(alloc, residues, nodes.len())? {
        Some(means) => {
            if are_means(&means.parts, nodes, &means.numbers)? {
                return Ok(Some(means));
            }
            Ok(None)
        }
        None => Ok(None),
    }
}

/// Returns the means from all nodes. They are solved for modulo primes.
fn all_means(alloc: Global, nodes: &[Node]) -> Result<Solution, ChainError>
    ensures { IfOk result (λ means. FitAll nodes.now (natural means.parts) means.numbers.items) }
{
    let mut residues = no_residues(alloc);
    let mut order = Vec::new(alloc);
    let mut prime = prime_below(1_000_000_001);
    let mut goal: usize = 1;
    let _ = visits_modulo(alloc, nodes, &mut order, prime, u64::MAX)?;
    'primes: for count in 1..MOST_PRIMES {
        let means = means_modulo(alloc, nodes, &order, prime)?;
        add_residues(&mut residues, means, prime)?;
        if count >= goal {
            if let Some(means) = checked(alloc, nodes, &residues)? {
                return Ok(means);
            }
            goal = count + count / 3 + 1;
        }
        prime = prime_below(prime);
    }
    Err(ChainError::NotSolved)
}

/// Returns a copy of the first number.
#[tactic(auto, using(crate::proofs::Fitting::value_is))]
fn first_of(numbers: &[Natural]) -> Result<Natural, ChainError>
    ensures { IfOk result (λ n. IsFirst numbers.now (natural n)) }
{
    if numbers.is_empty() {
        return Err(ChainError::NotSolved);
    }
    let first = numbers[0].copy()?;
    Ok(first)
}

/// Returns the mean number of steps of the runs of a program that has these nodes, or `None` if a
/// node is stuck: then runs may never end, and there is no mean. Each mean under a limit on steps
/// is at most the answer. It falls short of the answer by at most a constant times the weight of
/// the runs that go on.
///
/// `NoMemory` means that a request for memory was refused. `NotSolved` means that the mean was not
/// found, which no contract limits.
pub fn mean_steps(alloc: Global, nodes: &[Node]) -> Result<Option<Mean>, ChainError>
    ensures { IfOk result (λ found. IfSome found (λ mean.
        (p : Program) (states : List Meant) (s : Meant) → IsFull p states nodes.now →
        slice_get states 0 ≡ Some s → IsMeanOf p s (natural mean.parts) (natural mean.steps))) }
{
    if !none_stuck(nodes) {
        return Ok(None);
    }
    let means = all_means(alloc, nodes)?;
    if !is_some(&means.parts) {
        return Err(ChainError::NotSolved);
    }
    let steps = first_of(&means.numbers)?;
    Ok(Some(Mean {
        steps,
        parts: means.parts,
    }))
}
