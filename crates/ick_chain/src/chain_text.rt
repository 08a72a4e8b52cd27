//! Writes the states of a program, and where their choices lead.

ghost use Rattle.std.specs.Prelude.{◌≡◌, ◌<◌, ◌-◌, ◌++◌, codes, decimal, Err, IfOk, OnOk};
ghost use Rattle.std.specs.Prelude.{length, Some, ℕ};
ghost use Rattle.ick_code.specs.meaning.Move.{Asking};
ghost use Rattle.ick_code.specs.meaning.State.{State as Meant};
ghost use Rattle.ick_backtrack.specs.Asked.{asked_of, finish_of};
ghost use Rattle.ick_explorer.specs.Lines.{end_text};
ghost use Rattle.ick_numbers.specs.Values.{natural, naturals};
ghost use Rattle.ick_chain.specs.Answers.{IsAnswer};
ghost use Rattle.ick_chain.specs.Places.{states_in};
ghost use Rattle.ick_chain.specs.Progress.{OnlyShows};
ghost use Rattle.ick_chain.specs.Reached.{HasMoreStates};
ghost use Rattle.ick_chain.specs.Kept.{KeepsMore};
ghost use Rattle.ick_chain.specs.StatesTexts.{AreNodeTexts, IsStatesText, IsText};
ghost use Rattle.ick_chain.specs.StatesTexts.{AppendsHead, AppendsNode, asking_text, edge_text};
ghost use Rattle.ick_chain.specs.StatesTexts.{edges_text, fork_text, kind_text};
ghost use Rattle.ick_chain.specs.StatesTexts.{rest_text, weighed_text};

use crate::answer::{Answer, weigh};
use crate::chain::{Edge, Fork, Node};
use crate::errors::ChainError;
use crate::listing::unsearched;
use crate::numbered::are_numbered;
use crate::progress::Progress;
use crate::search::asked;
use crate::stretched::are_stretched;
use crate::weight_text::part_text;
use ick_backtrack::{Ask, End};
use ick_bits::{NoMemory, append_decimal, append_quoted};
use ick_numbers::Natural;
use ick_outcomes::{States, end_word};
use std::alloc::Global;

/// Appends `edge FROM CHOICE TO CHANCE STEPS`.
fn append_edge(
    out: &mut Vec<u8>,
    from: usize,
    choice: &[u8],
    chance: u8,
    edge: Edge,
) -> Result<(), NoMemory>
    ensures { OnOk result (out.new.items ≡ out.old.items ++ edge_text from choice.now chance edge) }
{
    out.extend_from_slice(b"edge ")?;
    append_decimal(out, from as u64)?;
    out.extend_from_slice(choice)?;
    append_decimal(out, edge.to as u64)?;
    out.push(b' ')?;
    append_decimal(out, u64::from(chance))?;
    out.push(b' ')?;
    append_decimal(out, u64::from(edge.steps))?;
    out.push(b'\n')?;
    Ok(())
}

/// Appends the edges of a state that asks for a choice.
fn append_choice(out: &mut Vec<u8>, from: usize, chance: u8, fork: Fork) -> Result<(), NoMemory>
    ensures { OnOk result (out.new.items ≡ out.old.items
        ++ edge_text from (codes " 0 ") (100 - chance) fork.zero
        ++ edge_text from (codes " 1 ") chance fork.one) }
{
    append_edge(out, from, b" 0 ", 100_u8.saturating_sub(chance), fork.zero)?;
    append_edge(out, from, b" 1 ", chance, fork.one)?;
    Ok(())
}

/// Appends the edges of a fork: one for each choice that its state asks for, or one if it asks for
/// none.
fn append_fork(out: &mut Vec<u8>, from: usize, ask: Ask<'_>, fork: Fork) -> Result<(), NoMemory>
    ensures { OnOk result ((a : Asking) → asked_of ask.entry ≡ Some a →
        out.new.items ≡ out.old.items ++ fork_text from a fork) }
{
    match ask {
        Ask::Ended(_) => Ok(()),
        Ask::Plain => append_edge(out, from, b" - ", 100, fork.zero),
        Ask::Choice(chance) => append_choice(out, from, chance, fork),
    }
}

/// Appends the edges of a node.
fn append_edges(out: &mut Vec<u8>, from: usize, ask: Ask<'_>, node: Node) -> Result<(), NoMemory>
    ensures { OnOk result ((a : Asking) → asked_of ask.entry ≡ Some a →
        out.new.items ≡ out.old.items ++ edges_text from a node) }
{
    match node {
        Node::Ends => Ok(()),
        Node::Goes(fork) => append_fork(out, from, ask, fork),
        Node::Stuck(fork) => append_fork(out, from, ask, fork),
    }
}

/// Returns how a run ended, as text.
fn ended_text(alloc: Global, end: End<'_>) -> Result<Vec<u8>, NoMemory>
    ensures { IfOk result (λ text. text.items ≡ end_text (finish_of end.entry)) }
{
    let word = end_word(alloc, end)?;
    let text = Vec::from_slice(alloc, &word)?;
    Ok(text)
}

/// Returns the number of a statement, as text.
fn statement_text(alloc: Global, statement: u32) -> Result<Vec<u8>, NoMemory>
    ensures { IfOk result (λ text. text.items ≡ decimal statement) }
{
    let mut text = Vec::new(alloc);
    append_decimal(&mut text, u64::from(statement))?;
    Ok(text)
}

/// Returns `STATEMENT:CHANCE`.
fn choice_text(alloc: Global, statement: u32, chance: u8) -> Result<Vec<u8>, NoMemory>
    ensures { IfOk result (λ text. text.items ≡ decimal statement ++ codes ":" ++ decimal chance) }
{
    let mut text = Vec::new(alloc);
    append_decimal(&mut text, u64::from(statement))?;
    text.push(b':')?;
    append_decimal(&mut text, u64::from(chance))?;
    Ok(text)
}

/// Returns what a state asks, as text: `STATEMENT:CHANCE`, or the number of the statement that is
/// met next if nothing is asked, or how the run ended.
fn asks_text(alloc: Global, statement: u32, ask: Ask<'_>) -> Result<Vec<u8>, NoMemory>
    ensures { IfOk result (λ text. (s : Meant) (a : Asking) → s.place ≡ statement →
        asked_of ask.entry ≡ Some a → text.items ≡ asking_text s a) }
{
    match ask {
        Ask::Ended(end) => ended_text(alloc, end),
        Ask::Plain => statement_text(alloc, statement),
        Ask::Choice(chance) => choice_text(alloc, statement, chance),
    }
}

/// Appends what kind of state it is, and its number.
fn append_kind(out: &mut Vec<u8>, kind: &[u8], at: usize) -> Result<(), NoMemory>
    ensures { OnOk result (out.new.items ≡ out.old.items ++ kind_text kind.now at) }
{
    out.extend_from_slice(kind)?;
    append_decimal(out, at as u64)?;
    out.push(b' ')?;
    Ok(())
}

/// Appends what kind of state it is, its number and its weight.
fn append_weighed(out: &mut Vec<u8>, kind: &[u8], at: usize, weight: &[u8]) -> Result<(), NoMemory>
    ensures { OnOk result (out.new.items ≡ out.old.items
        ++ weighed_text kind.now at weight.now) }
{
    out.extend_from_slice(kind)?;
    append_decimal(out, at as u64)?;
    out.push(b' ')?;
    out.extend_from_slice(weight)?;
    out.push(b' ')?;
    Ok(())
}

/// Appends what stands in front of what a state asks: `state NUMBER` if its run goes on and may
/// end, `end NUMBER WEIGHT` if it has ended, and `never NUMBER WEIGHT` if it never ends.
fn append_head(
    alloc: Global,
    out: &mut Vec<u8>,
    at: usize,
    node: Node,
    visits: &Natural,
    parts: &Natural,
    exact: bool,
) -> Result<(), ChainError>
    requires { 0 < natural parts.now }
    ensures { OnOk result (AppendsHead exact (natural parts.now) at (natural visits.now) node
        out.old.items out.new.items) }
{
    match node {
        Node::Goes(_) => {
            append_kind(out, b"state ", at)?;
            Ok(())
        }
        Node::Ends => {
            let weight = part_text(alloc, visits, parts, exact)?;
            append_weighed(out, b"end ", at, &weight)?;
            Ok(())
        }
        Node::Stuck(_) => {
            let weight = part_text(alloc, visits, parts, exact)?;
            append_weighed(out, b"never ", at, &weight)?;
            Ok(())
        }
    }
}

/// Appends what a state asks, and what was written before it.
fn append_rest(out: &mut Vec<u8>, asks: &[u8], output: &[u8]) -> Result<(), NoMemory>
    ensures { OnOk result (out.new.items ≡ out.old.items ++ rest_text asks.now output.now) }
{
    out.extend_from_slice(asks)?;
    out.push(b' ')?;
    append_quoted(out, output)?;
    out.push(b'\n')?;
    Ok(())
}

/// Appends the line of a state, and the lines of its edges.
fn append_node<'c, P: States<'c>>(
    alloc: Global,
    program: &P,
    out: &mut Vec<u8>,
    at: usize,
    state: &P::State,
    node: Node,
    visits: &Natural,
    parts: &Natural,
    exact: bool,
) -> Result<(), ChainError>
    requires state { P.suits program.now state.now }
    requires parts { 0 < natural parts.now }
    ensures { OnOk result (AppendsNode (P.text program.now) exact (natural parts.now) at
        (P.seen program.now state.now).state node (natural visits.now)
        out.old.items out.new.items) }
{
    let ask = asked(program, state);
    append_head(alloc, out, at, node, visits, parts, exact)?;
    let asks = asks_text(alloc, program.statement(state), ask)?;
    append_rest(out, &asks, program.output(state))?;
    append_edges(out, at, ask, node)?;
    Ok(())
}

/// Returns the texts of the nodes of an answer that `weigh` returned for this program.
fn nodes_text<'c, P: States<'c>>(
    alloc: Global,
    program: &P,
    answer: &Answer<P::State>,
    exact: bool,
) -> Result<Vec<u8>, ChainError>
    requires { IsAnswer (P.text program.now) (P.seen program.now) (P.suits program.now)
        answer.now }
    ensures { IfOk result (λ text. AreNodeTexts (P.text program.now) exact
        (natural answer.now.parts) (states_in (P.seen program.now) answer.now.chain.states.items)
        answer.now.chain.nodes.items (naturals answer.now.visits.items)
        (length answer.now.chain.nodes.items) text.items) }
{
    let mut text = Vec::new(alloc);
    let nodes = &answer.chain.nodes;
    let states = &answer.chain.states;
    'nodes: for at in 0..nodes.len() {
        if at >= states.len() || at >= answer.visits.len() {
            return Err(ChainError::NotSolved);
        }
        append_node(
            alloc,
            program,
            &mut text,
            at,
            &states[at],
            nodes[at],
            &answer.visits[at],
            &answer.parts,
            exact,
        )?;
    }
    Ok(text)
}

/// Returns the text of an answer that `weigh` returned for this program, if its states are numbered
/// as a search by breadth meets them, and its edges go as far as they may.
fn numbered_text<'c, P: States<'c>>(
    alloc: Global,
    program: &P,
    answer: &Answer<P::State>,
    stretch: u32,
    exact: bool,
) -> Result<Vec<u8>, ChainError>
    requires answer { IsAnswer (P.text program.now) (P.seen program.now) (P.suits program.now)
        answer.now }
    requires stretch { stretch < 4294967295 }
    ensures { IfOk result (λ text. IsText (P.text program.now)
        (states_in (P.seen program.now) answer.now.chain.states.items)
        answer.now.chain.nodes.items (natural answer.now.parts)
        (naturals answer.now.visits.items) stretch exact text.items) }
{
    let nodes = &answer.chain.nodes;
    if !are_numbered(nodes) || !are_stretched(nodes, stretch + 1) {
        return Err(ChainError::NotSolved);
    }
    let mut text = nodes_text(alloc, program, answer, exact)?;
    text.extend_from_slice(b"DONE\n")?;
    Ok(text)
}

/// Returns the chain of a program without a limit on steps, as text. Each state that can be reached
/// and that asks for a choice, or in which a run ends, has a line and a number. The lines of its
/// choices are behind it:
///
///     state NUMBER STATEMENT:CHANCE OUTPUT
///     end NUMBER WEIGHT END OUTPUT
///     never NUMBER WEIGHT STATEMENT:CHANCE OUTPUT
///     edge FROM CHOICE TO CHANCE STEPS
///     DONE
///
/// `never` is a state from which no run ends. Its weight is that of the runs for which it is the
/// first such state. Equal states have one line, and the numbers are those in which a search by
/// breadth meets them: the first state is 0. A state that asks nothing has the number of its
/// statement alone, and the choice of its one edge is `-`. It is the first one, or it comes after
/// `stretch` steps without a choice. With `exact` each weight is whole.
///
/// The other arguments and the refusals are those of `exact_listing`.
pub fn states_text<'c, P: States<'c>, E: Progress>(
    alloc: Global,
    program: &P,
    tools: &mut P::Tools,
    state: P::State,
    stretch: u32,
    most: usize,
    memory: u64,
    exact: bool,
    progress: &mut E,
) -> Result<Vec<u8>, ChainError>
    requires tools { P.serves program.now tools.old }
    requires state { P.suits program.now state }
    requires stretch { stretch < 4294967295 }
    ensures text { IfOk result (λ text. IsStatesText (P.text program.now)
        (P.seen program.now state).state stretch exact text.items) }
    ensures many { (steps : ℕ) → result ≡ Err (ChainError.TooManyStates steps) →
        HasMoreStates (P.text program.now) (P.seen program.now state).state most steps }
    ensures much { result ≡ Err ChainError.TooMuchKept → KeepsMore (P.text program.now)
        (P.seen program.now) (P.suits program.now) (P.size program.now)
        (P.seen program.now state).state memory }
    ensures shown { OnlyShows E.told E.failed E.written E.shows progress.old progress.new }
{
    let answer = weigh(
        alloc, program, tools, state, stretch, most, memory, progress,
    )?;
    unsearched(numbered_text(alloc, program, &answer, stretch, exact))
}
