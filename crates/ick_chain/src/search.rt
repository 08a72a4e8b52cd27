//! Finds all states of a program, and where they lead.

ghost use Rattle.std.specs.Prelude.{◌≡◌, ◌+◌, ◌<◌, ◌≤◌, ℕ, [], ◌∷◌, ◌++◌, length, Some, slice_get};
ghost use Rattle.std.specs.Prelude.{IfOk, OnOk, IfSome, IfNone, Err, slice_index_or};
ghost use Rattle.ick_code.specs.meaning.Move.{plain, choice};
ghost use Rattle.ick_outcomes.specs.Programs.{ask, advance, IsPlain, RunsOn};
ghost use Rattle.ick_code.specs.meaning.State.{State as Meant};
ghost use Rattle.ick_backtrack.specs.Asked.{IsGoing, asked_of};
ghost use Rattle.ick_chain.specs.Places.{Reaches, Tells, AllTell, Extends, IsFull, states_in};
ghost use Rattle.ick_chain.specs.Places.{AllSuit, state_or};
ghost use Rattle.ick_chain.specs.Found.{IsFound, IsNew, IsReachedIn};
ghost use Rattle.ick_chain.specs.Progress.{OnlyShows};
ghost use Rattle.ick_chain.specs.Reached.{AreDifferent, AreReached, HasMoreStates, LeadsTo};
ghost use Rattle.ick_chain.specs.Reached.{TakesMore};
ghost use Rattle.ick_chain.specs.Reached.{fork_steps as steps_of_fork, steps_at as steps_of_node};

use crate::chain::{Edge, Fork, Node};
use crate::errors::ChainError;
use crate::index::Index;
use crate::progress::{Progress, show_states};
use ick_backtrack::Ask;
use ick_bits::NoMemory;
use ick_outcomes::States;
use std::alloc::Global;

/// What is counted for each state besides the state: its node, and its places in a list and in an
/// index.
pub(crate) const NODE_BYTES: u64 = 96;

/// The states that were found, each once, and an index that has the key of each of them.
#[derive(Drop)]
pub(crate) struct Found<S: Drop> {
    pub(crate) states: Vec<S>,
    pub(crate) index: Index,
    /// The bytes of the states, and of what is kept for them.
    pub(crate) bytes: u64,
}

/// The states of a program, and a node for each.
#[derive(Drop)]
pub struct Chain<S: Drop> {
    pub states: Vec<S>,
    pub nodes: Vec<Node>,
}

/// Returns the number of the state that is equal, by looking at each state.
fn find_equal<'c, P: States<'c>>(
    program: &P,
    states: &[P::State],
    state: &P::State,
) -> Option<usize>
    requires states { AllSuit (P.suits program.now) states.now }
    requires state { P.suits program.now state.now }
    ensures there { IfSome result (λ i. slice_get (states_in (P.seen program.now) states.now) i
        ≡ Some (P.seen program.now state.now).state) }
    ensures none { IfNone result (IsNew (states_in (P.seen program.now) states.now)
        (P.seen program.now state.now).state) }
{
    'states: for at in 0..states.len() {
        if program.same(&states[at], state) {
            return Some(at);
        }
    }
    None
}

/// Returns the number of the state that is equal, if there is one. `key` is that of the state. The
/// last state that has this key is looked at first.
fn find_state<'c, P: States<'c>>(
    program: &P,
    found: &Found<P::State>,
    key: u64,
    state: &P::State,
) -> Option<usize>
    requires found { IsFound (P.text program.now) (P.seen program.now) (P.suits program.now)
        (P.key program.now) (P.size program.now) found.now }
    requires state { P.suits program.now state.now }
    requires key { key ≡ P.key program.now state.now }
    ensures there { IfSome result (λ i. slice_get
        (states_in (P.seen program.now) found.now.states.items) i
        ≡ Some (P.seen program.now state.now).state) }
    ensures none { IfNone result (IsNew (states_in (P.seen program.now) found.now.states.items)
        (P.seen program.now state.now).state) }
{
    program.keys();
    match found.index.find(key) {
        Some(at) => {
            if at < found.states.len() && program.same(&found.states[at], state) {
                return Some(at);
            }
            find_equal(program, &found.states, state)
        }
        None => None,
    }
}

/// Appends a state.
fn add_state<'c, P: States<'c>>(
    program: &P,
    found: &mut Found<P::State>,
    key: u64,
    state: P::State,
) -> Result<(), NoMemory>
    requires state { P.suits program.now state }
    requires key { key ≡ P.key program.now state }
    requires found { IsFound (P.text program.now) (P.seen program.now) (P.suits program.now)
        (P.key program.now) (P.size program.now) found.old }
    requires new { IsNew (states_in (P.seen program.now) found.old.states.items)
        (P.seen program.now state).state }
    requires reached { IsReachedIn (P.text program.now)
        (states_in (P.seen program.now) found.old.states.items) (P.seen program.now state).state }
    ensures added { OnOk result (found.new.states.items ≡ found.old.states.items ++ state ∷ []) }
    ensures found { OnOk result (IsFound (P.text program.now) (P.seen program.now)
        (P.suits program.now) (P.key program.now) (P.size program.now) found.new) }
{
    let at = found.states.len();
    let bytes = program.bytes(&state).saturating_add(NODE_BYTES);
    found.index.note(key, at)?;
    found.states.push(state)?;
    found.bytes = found.bytes.saturating_add(bytes);
    Ok(())
}

/// Returns the number of a state, which is appended unless an equal one was found before.
fn place<'c, P: States<'c>>(
    program: &P,
    found: &mut Found<P::State>,
    state: P::State,
) -> Result<usize, NoMemory>
    requires state { P.suits program.now state }
    requires found { IsFound (P.text program.now) (P.seen program.now) (P.suits program.now)
        (P.key program.now) (P.size program.now) found.old }
    requires reached { IsReachedIn (P.text program.now)
        (states_in (P.seen program.now) found.old.states.items) (P.seen program.now state).state }
    ensures there { IfOk result (λ i. slice_get
        (states_in (P.seen program.now) found.new.states.items) i
        ≡ Some (P.seen program.now state).state) }
    ensures kept { OnOk result (Extends (states_in (P.seen program.now) found.old.states.items)
        (states_in (P.seen program.now) found.new.states.items)) }
    ensures found { OnOk result (IsFound (P.text program.now) (P.seen program.now)
        (P.suits program.now) (P.key program.now) (P.size program.now) found.new) }
    ensures more { OnOk result (length found.old.states.items ≤ length found.new.states.items) }
    ensures new { IfOk result (λ at. (i : ℕ) → length found.old.states.items ≤ i →
        i < length found.new.states.items → at ≡ i) }
{
    let key = program.hash(&state);
    match find_state(program, found, key, &state) {
        Some(at) => Ok(at),
        None => {
            let at = found.states.len();
            add_state(program, found, key, state)?;
            Ok(at)
        }
    }
}

/// Returns what is asked at a state.
pub(crate) fn asked<'c, P: States<'c>>(program: &P, state: &P::State) -> Ask<'c>
    requires { P.suits program.now state.now }
    ensures { asked_of result
        ≡ Some (ask (P.text program.now) (P.seen program.now state.now).state) }
{
    program.law(state);
    program.asks(state)
}

/// Makes the steps of `step_from`. Contracts see the program as that of all states.
fn step_from<'c, P: States<'c>>(
    program: &P,
    tools: &mut P::Tools,
    state: &P::State,
    done: bool,
    stretch: u32,
) -> Result<(P::State, u32), NoMemory>
    requires tools { P.serves program.now tools.old }
    requires state { P.suits program.now state.now }
    requires going { IsGoing (ask (P.text program.now) (P.seen program.now state.now).state) }
    ensures runs { IfOk result (λ p. RunsOn (P.text program.now)
        (advance (P.text program.now) (P.seen program.now state.now).state done)
        p.1 (P.seen program.now p.0).state) }
    ensures within { IfOk result (λ p. p.1 ≤ stretch) }
    ensures state { IfOk result (λ p. P.suits program.now p.0) }
    ensures tools { P.serves program.now tools.new }
{
    program.law(state);
    program.step_from(tools, state, done, stretch)
}

/// Returns where a step from a state with this answer leads, and the plain steps behind it.
fn follow<'c, P: States<'c>>(
    program: &P,
    tools: &mut P::Tools,
    found: &mut Found<P::State>,
    at: usize,
    done: bool,
    stretch: u32,
) -> Result<Edge, NoMemory>
    requires tools { P.serves program.now tools.old }
    requires found { IsFound (P.text program.now) (P.seen program.now) (P.suits program.now)
        (P.key program.now) (P.size program.now) found.old }
    requires at { at < length found.old.states.items }
    requires stretch { stretch < 4294967295 }
    requires going { (s : Meant) →
        slice_get (states_in (P.seen program.now) found.old.states.items) at ≡ Some s →
        IsGoing (ask (P.text program.now) s) }
    ensures reaches { IfOk result (λ edge. (s : Meant) →
        slice_get (states_in (P.seen program.now) found.old.states.items) at ≡ Some s →
        Reaches (P.text program.now) (states_in (P.seen program.now) found.new.states.items) s
        done edge) }
    ensures kept { OnOk result (Extends (states_in (P.seen program.now) found.old.states.items)
        (states_in (P.seen program.now) found.new.states.items)) }
    ensures found { OnOk result (IsFound (P.text program.now) (P.seen program.now)
        (P.suits program.now) (P.key program.now) (P.size program.now) found.new) }
    ensures more { OnOk result (length found.old.states.items ≤ length found.new.states.items) }
    ensures new { IfOk result (λ edge. (i : ℕ) → length found.old.states.items ≤ i →
        i < length found.new.states.items → edge.to ≡ i) }
    ensures tools { P.serves program.now tools.new }
{
    let (state, made) = step_from(program, tools, &found.states[at], done, stretch)?;
    let to = place(program, found, state)?;
    Ok(Edge {
        to,
        steps: made + 1,
    })
}

/// Returns what the state with a number asks.
fn ask_at<'c, P: States<'c>>(program: &P, states: &[P::State], at: usize) -> Ask<'c>
    requires at { at < length states.now }
    requires states { AllSuit (P.suits program.now) states.now }
    ensures { (s : Meant) → slice_get (states_in (P.seen program.now) states.now) at ≡ Some s →
        asked_of result ≡ Some (ask (P.text program.now) s) }
{
    asked(program, &states[at])
}

/// Returns the node of a state that asks nothing.
fn pass<'c, P: States<'c>>(
    program: &P,
    tools: &mut P::Tools,
    found: &mut Found<P::State>,
    at: usize,
    stretch: u32,
) -> Result<Node, NoMemory>
    requires tools { P.serves program.now tools.old }
    requires found { IsFound (P.text program.now) (P.seen program.now) (P.suits program.now)
        (P.key program.now) (P.size program.now) found.old }
    requires at { at < length found.old.states.items }
    requires stretch { stretch < 4294967295 }
    requires asks { (s : Meant) →
        slice_get (states_in (P.seen program.now) found.old.states.items) at ≡ Some s →
        ask (P.text program.now) s ≡ plain }
    ensures tells { IfOk result (λ node. (s : Meant) →
        slice_get (states_in (P.seen program.now) found.old.states.items) at ≡ Some s →
        Tells (P.text program.now) (states_in (P.seen program.now) found.new.states.items) s
        node) }
    ensures kept { OnOk result (Extends (states_in (P.seen program.now) found.old.states.items)
        (states_in (P.seen program.now) found.new.states.items)) }
    ensures found { OnOk result (IsFound (P.text program.now) (P.seen program.now)
        (P.suits program.now) (P.key program.now) (P.size program.now) found.new) }
    ensures more { OnOk result (length found.old.states.items ≤ length found.new.states.items) }
    ensures new { IfOk result (λ node. (i : ℕ) → length found.old.states.items ≤ i →
        i < length found.new.states.items → LeadsTo node i) }
    ensures tools { P.serves program.now tools.new }
{
    let zero = follow(program, tools, found, at, false, stretch)?;
    Ok(Node::Goes(Fork {
        chance: 0,
        zero,
        one: zero,
    }))
}

/// Returns the node of a state that asks for a choice.
fn branch<'c, P: States<'c>>(
    program: &P,
    tools: &mut P::Tools,
    found: &mut Found<P::State>,
    at: usize,
    chance: u8,
    stretch: u32,
) -> Result<Node, NoMemory>
    requires tools { P.serves program.now tools.old }
    requires found { IsFound (P.text program.now) (P.seen program.now) (P.suits program.now)
        (P.key program.now) (P.size program.now) found.old }
    requires at { at < length found.old.states.items }
    requires stretch { stretch < 4294967295 }
    requires asks { (s : Meant) →
        slice_get (states_in (P.seen program.now) found.old.states.items) at ≡ Some s →
        ask (P.text program.now) s ≡ choice chance }
    ensures tells { IfOk result (λ node. (s : Meant) →
        slice_get (states_in (P.seen program.now) found.old.states.items) at ≡ Some s →
        Tells (P.text program.now) (states_in (P.seen program.now) found.new.states.items) s
        node) }
    ensures kept { OnOk result (Extends (states_in (P.seen program.now) found.old.states.items)
        (states_in (P.seen program.now) found.new.states.items)) }
    ensures found { OnOk result (IsFound (P.text program.now) (P.seen program.now)
        (P.suits program.now) (P.key program.now) (P.size program.now) found.new) }
    ensures more { OnOk result (length found.old.states.items ≤ length found.new.states.items) }
    ensures new { IfOk result (λ node. (i : ℕ) → length found.old.states.items ≤ i →
        i < length found.new.states.items → LeadsTo node i) }
    ensures tools { P.serves program.now tools.new }
{
    let zero = follow(program, tools, found, at, false, stretch)?;
    let one = follow(program, tools, found, at, true, stretch)?;
    Ok(Node::Goes(Fork { chance, zero, one }))
}

/// Returns the node of a state.
fn expand<'c, P: States<'c>>(
    program: &P,
    tools: &mut P::Tools,
    found: &mut Found<P::State>,
    at: usize,
    stretch: u32,
) -> Result<Node, NoMemory>
    requires tools { P.serves program.now tools.old }
    requires found { IsFound (P.text program.now) (P.seen program.now) (P.suits program.now)
        (P.key program.now) (P.size program.now) found.old }
    requires at { at < length found.old.states.items }
    requires stretch { stretch < 4294967295 }
    ensures tells { IfOk result (λ node. (s : Meant) →
        slice_get (states_in (P.seen program.now) found.old.states.items) at ≡ Some s →
        Tells (P.text program.now) (states_in (P.seen program.now) found.new.states.items) s
        node) }
    ensures kept { OnOk result (Extends (states_in (P.seen program.now) found.old.states.items)
        (states_in (P.seen program.now) found.new.states.items)) }
    ensures found { OnOk result (IsFound (P.text program.now) (P.seen program.now)
        (P.suits program.now) (P.key program.now) (P.size program.now) found.new) }
    ensures more { OnOk result (length found.old.states.items ≤ length found.new.states.items) }
    ensures new { IfOk result (λ node. (i : ℕ) → length found.old.states.items ≤ i →
        i < length found.new.states.items → LeadsTo node i) }
    ensures tools { P.serves program.now tools.new }
{
    match ask_at(program, &found.states, at) {
        Ask::Ended(_) => Ok(Node::Ends),
        Ask::Plain => pass(program, tools, found, at, stretch),
        Ask::Choice(chance) => branch(program, tools, found, at, chance, stretch),
    }
}

/// Returns the first state as the only one found.
fn begin<'c, P: States<'c>>(
    alloc: Global,
    program: &P,
    state: P::State,
) -> Result<Found<P::State>, NoMemory>
    requires { P.suits program.now state }
    ensures first { IfOk result (λ found. slice_get
        (states_in (P.seen program.now) found.states.items) 0
        ≡ Some (P.seen program.now state).state) }
    ensures found { IfOk result (IsFound (P.text program.now) (P.seen program.now)
        (P.suits program.now) (P.key program.now) (P.size program.now)) }
    ensures one { IfOk result (λ found. (i : ℕ) → i < length found.states.items → 0 ≡ i) }
{
    let mut found = Found {
        states: Vec::new(alloc),
        index: Index::new(alloc),
        bytes: 0,
    };
    let at = place(program, &mut found, state)?;
    if at != 0 {
        return Err(NoMemory);
    }
    Ok(found)
}

/// Appends a node.
fn add_node(nodes: &mut Vec<Node>, node: Node) -> Result<(), NoMemory>
    ensures { OnOk result (nodes.new.items ≡ nodes.old.items ++ node ∷ []) }
{
    nodes.push(node)?;
    Ok(())
}

/// Returns the steps along the edges of a fork.
fn fork_steps(fork: Fork) -> u64
    ensures { result ≡ steps_of_fork fork }
{
    let zero = u64::from(fork.zero.steps);
    if fork.chance == 0 {
        return zero;
    }
    zero + u64::from(fork.one.steps)
}

/// Returns the steps along the edges of a node.
fn steps_at(node: Node) -> u64
    ensures { result ≡ steps_of_node node }
{
    match node {
        Node::Ends => 0,
        Node::Goes(fork) => fork_steps(fork),
        Node::Stuck(fork) => fork_steps(fork),
    }
}

/// Returns why a search that made so many steps must stop, if it must: `most` states or `memory`
/// bytes are passed.
fn refusal<S: Drop>(found: &Found<S>, steps: u64, most: usize, memory: u64) -> Option<ChainError>
    ensures states { (n : ℕ) → result ≡ Some (ChainError.TooManyStates n) →
        (n ≡ steps) × (most < length found.now.states.items) }
    ensures bytes { result ≡ Some ChainError.TooMuchKept → memory < found.now.bytes }
    ensures few { IfNone result (length found.now.states.items ≤ most) }
{
    if found.states.len() > most {
        return Some(ChainError::TooManyStates(steps));
    }
    if found.bytes > memory {
        return Some(ChainError::TooMuchKept);
    }
    None
}

/// Finds the states of a program, and where they lead. Plain steps are made at most `stretch` at a
/// time. At most `most` states are kept, and at most `memory` bytes for them, as `bytes_of` counts
/// them.
///
/// `TooManyStates` is returned only if more than `most` different states can be reached. It has the
/// number of steps that found them, or 2^64 - 1 if the number is greater. `TooMuchKept` is returned
/// only if different states that can be reached take more than `memory` bytes. `NoMemory` is
/// returned only if a growth was refused. After every 100,000 states `progress` is told.
pub fn explore<'c, P: States<'c>, E: Progress>(
    alloc: Global,
    program: &P,
    tools: &mut P::Tools,
    state: P::State,
    stretch: u32,
    most: usize,
    memory: u64,
    progress: &mut E,
) -> Result<Chain<P::State>, ChainError>
    requires tools { P.serves program.now tools.old }
    requires state { P.suits program.now state }
    requires stretch { stretch < 4294967295 }
    ensures full { IfOk result (λ chain. IsFull (P.text program.now)
        (states_in (P.seen program.now) chain.states.items) chain.nodes.items) }
    ensures first { IfOk result (λ chain. slice_get
        (states_in (P.seen program.now) chain.states.items) 0
        ≡ Some (P.seen program.now state).state) }
    ensures states { IfOk result (λ chain. AllSuit (P.suits program.now) chain.states.items) }
    ensures different { IfOk result (λ chain. AreDifferent
        (states_in (P.seen program.now) chain.states.items)) }
    ensures reached { IfOk result (λ chain. AreReached (P.text program.now)
        (P.seen program.now state).state (states_in (P.seen program.now) chain.states.items)) }
    ensures many { (steps : ℕ) → result ≡ Err (ChainError.TooManyStates steps) →
        HasMoreStates (P.text program.now) (P.seen program.now state).state most steps }
    ensures much { result ≡ Err ChainError.TooMuchKept → TakesMore (P.text program.now)
        (P.seen program.now) (P.suits program.now) (P.size program.now)
        (P.seen program.now state).state memory }
    ensures shown { OnlyShows E.told E.failed E.written E.shows progress.old progress.new }
{
    let mut found = begin(alloc, program, state)?;
    let mut nodes = Vec::new(alloc);
    let mut steps: u64 = 0;
    'nodes: for at in 0..most {
        if at >= found.states.len() {
            return Ok(Chain {
                states: found.states,
                nodes,
            });
        }
        if let Some(refused) = refusal(&found, steps, most, memory) {
            return Err(refused);
        }
        let node = expand(program, tools, &mut found, at, stretch)?;
        steps = steps.saturating_add(steps_at(node));
        add_node(&mut nodes, node)?;
        show_states(progress, nodes.len());
    }
    if let Some(refused) = refusal(&found, steps, most, memory) {
        return Err(refused);
    }
    Ok(Chain {
        states: found.states,
        nodes,
    })
}
