//! Weighs all runs of a program without a limit.

ghost use Rattle.std.specs.Prelude.{◌≡◌, ◌<◌, ℕ, slice_get, Some, Err, IfOk};
ghost use Rattle.ick_numbers.specs.Values.{natural, naturals};
ghost use Rattle.ick_chain.specs.Chains.{IsExact, passing, never, all_steps};
ghost use Rattle.ick_chain.specs.Answers.{IsAnswer};
ghost use Rattle.ick_chain.specs.Places.{states_in, state_or, AllSuit, IsFull};
ghost use Rattle.ick_chain.specs.Kept.{KeepsMore};
ghost use Rattle.ick_chain.specs.Progress.{OnlyShows};
ghost use Rattle.ick_chain.specs.Reached.{AreDifferent, AreReached, HasMoreStates, TakesMore};

use crate::errors::ChainError;
use crate::memory::states_bytes;
use crate::progress::Progress;
use crate::search::{Chain, explore};
use crate::solving::solve;
use crate::stuck::mark_stuck;
use ick_numbers::Natural;
use ick_outcomes::States;
use std::alloc::Global;

/// The chain of a program, and how often its nodes are visited.
#[derive(Drop)]
pub struct Answer<S: Drop> {
    /// The states of the program, and where they lead.
    pub chain: Chain<S>,
    /// How often each node is visited, in parts.
    pub visits: Vec<Natural>,
    /// The number of parts that weigh 1 together.
    pub parts: Natural,
}

/// Finds the chain of a program, with the nodes marked from which no end can be reached.
fn find_chain<'c, P: States<'c>, E: Progress>(
    alloc: Global,
    program: &P,
    tools: &mut P::Tools,
    state: P::State,
    stretch: u32,
    most: usize,
    memory: u64,
    progress: &mut E,
) -> Result<Chain<P::State>, ChainError>
    requires tools { P.serves program.now tools.old }
    requires state { P.suits program.now state }
    requires stretch { stretch < 4294967295 }
    ensures full { IfOk result (λ chain. IsFull (P.text program.now)
        (states_in (P.seen program.now) chain.states.items) chain.nodes.items) }
    ensures first { IfOk result (λ chain. slice_get
        (states_in (P.seen program.now) chain.states.items) 0
        ≡ Some (P.seen program.now state).state) }
    ensures states { IfOk result (λ chain. AllSuit (P.suits program.now) chain.states.items) }
    ensures different { IfOk result (λ chain. AreDifferent
        (states_in (P.seen program.now) chain.states.items)) }
    ensures many { (steps : ℕ) → result ≡ Err (ChainError.TooManyStates steps) →
        HasMoreStates (P.text program.now) (P.seen program.now state).state most steps }
    ensures reached { IfOk result (λ chain. AreReached (P.text program.now)
        (P.seen program.now state).state (states_in (P.seen program.now) chain.states.items)) }
    ensures much { result ≡ Err ChainError.TooMuchKept → TakesMore (P.text program.now)
        (P.seen program.now) (P.suits program.now) (P.size program.now)
        (P.seen program.now state).state memory }
    ensures shown { OnlyShows E.told E.failed E.written E.shows progress.old progress.new }
{
    let mut chain = explore(
        alloc, program, tools, state, stretch, most, memory, progress,
    )?;
    mark_stuck(alloc, &mut chain.nodes)?;
    Ok(chain)
}

/// Weighs all runs of a program from a state, without a limit on steps. `list_outcomes` lists the
/// outcomes of the answer. Plain steps are made at most `stretch` at a time. At most `most` states
/// are kept, and at most `memory` bytes for them and in the rows of the solver, as `bytes_of` and
/// `solver_bytes` count them. The state must be of the program, and the tools must be for it.
///
/// `TooManyStates` is returned only if more than `most` different states can be reached. It has the
/// number of steps that found them, or 2^64 - 1 if the number is greater. `TooMuchKept` is returned
/// only if different states that can be reached, and what a solver keeps for them, take more than
/// `memory` bytes. The other refusals are `NoMemory` and `NotSolved`. No contract speaks of them.
#[tactic(auto, using(crate::proofs::KeptLaws::keeps_states, crate::proofs::KeptLaws::keeps_solver))]
pub fn weigh<'c, P: States<'c>, E: Progress>(
    alloc: Global,
    program: &P,
    tools: &mut P::Tools,
    state: P::State,
    stretch: u32,
    most: usize,
    memory: u64,
    progress: &mut E,
) -> Result<Answer<P::State>, ChainError>
    requires tools { P.serves program.now tools.old }
    requires state { P.suits program.now state }
    requires stretch { stretch < 4294967295 }
    ensures exact { IfOk result (λ a. IsExact (P.text program.now) (P.seen program.now state).state
        (natural a.parts)
        (λ q. passing (λ i. q (state_or (P.seen program.now state).state
        (states_in (P.seen program.now) a.chain.states.items) i))
        a.chain.nodes.items (naturals a.visits.items))
        (never a.chain.nodes.items (naturals a.visits.items))
        (all_steps a.chain.nodes.items (naturals a.visits.items))) }
    ensures answer { IfOk result
        (IsAnswer (P.text program.now) (P.seen program.now) (P.suits program.now)) }
    ensures first { IfOk result (λ a. slice_get
        (states_in (P.seen program.now) a.chain.states.items) 0
        ≡ Some (P.seen program.now state).state) }
    ensures different { IfOk result (λ a. AreDifferent
        (states_in (P.seen program.now) a.chain.states.items)) }
    ensures many { (steps : ℕ) → result ≡ Err (ChainError.TooManyStates steps) →
        HasMoreStates (P.text program.now) (P.seen program.now state).state most steps }
    ensures reached { IfOk result (λ a. AreReached (P.text program.now)
        (P.seen program.now state).state (states_in (P.seen program.now) a.chain.states.items)) }
    ensures much { result ≡ Err ChainError.TooMuchKept → KeepsMore (P.text program.now)
        (P.seen program.now) (P.suits program.now) (P.size program.now)
        (P.seen program.now state).state memory }
    ensures shown { OnlyShows E.told E.failed E.written E.shows progress.old progress.new }
{
    let chain = find_chain(
        alloc, program, tools, state, stretch, most, memory, progress,
    )?;
    let room = memory.saturating_sub(states_bytes(program, &chain.states));
    let solution = solve(alloc, &chain.nodes, room, progress)?;
    Ok(Answer {
        chain,
        visits: solution.numbers,
        parts: solution.parts,
    })
}
