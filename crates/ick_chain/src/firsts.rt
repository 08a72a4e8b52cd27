//! Checks that the runs that are shown for rows with counts are their first runs.

ghost use Rattle.std.specs.Prelude.{◌≡◌, ◌<◌, ℕ, true, false, Some, take, IfSome, IfNone};
ghost use Rattle.std.specs.Prelude.{List, length, option_map, slice_get, IfOk, OnOk};
ghost use Rattle.ick_code.specs.meaning.State.{State as Meant};
ghost use Rattle.ick_outcomes.specs.Programs.{Program};
ghost use Rattle.ick_backtrack.specs.Asked.{at_limit};
ghost use Rattle.ick_explorer.specs.Lines.{end_text};
ghost use Rattle.ick_numbers.specs.Values.{natural};
ghost use Rattle.ick_chain.specs.declared.chain.Node.TheVariants.{Ends as ends};
ghost use Rattle.ick_chain.specs.Answers.{IsAnswer};
ghost use Rattle.ick_chain.specs.Counts.{counts_of};
ghost use Rattle.ick_chain.specs.FirstRuns.{IsSoonest};
ghost use Rattle.ick_chain.specs.Firsts.{AreSoonest, HasNoCount, IsNumberedBy};
ghost use Rattle.ick_chain.specs.Lasts.{LeadFirst, ShowSoonest, last_of};
ghost use Rattle.ick_chain.specs.Places.{IsFull, states_in};
ghost use Rattle.ick_chain.specs.Ranks.{HaveNumbers};
ghost use Rattle.ick_chain.specs.Rows.{rows_of};
ghost use Rattle.ick_chain.specs.Shown.{choices_of};
ghost use Rattle.ick_chain.specs.Ways.{IsForkOf, edge_of};

use crate::answer::Answer;
use crate::chain::{Fork, Node};
use crate::errors::ChainError;
use crate::lasts::{are_lasts, find_lasts, last_at};
use crate::row::{Row, is_row};
use crate::rows::rows_at;
use crate::ways::{Rank, add_rank};
use ick_bits::NoMemory;
use ick_numbers::Natural;
use ick_outcomes::States;
use std::alloc::Global;

/// Returns the fork of a node, or `None` if the node has ended.
fn fork_of(node: Node) -> Option<Fork>
    ensures some { IfSome result (λ fork. IsForkOf node fork) }
    ensures none { IfNone result (node ≡ ends) }
{
    match node {
        Node::Ends => None,
        Node::Goes(fork) => Some(fork),
        Node::Stuck(fork) => Some(fork),
    }
}

/// Returns the node that a choice leads to. `None` means that the choice is 1, and that the choice
/// 0 leads to a node with at least this number.
fn first_node(fork: Fork, one: bool, lasts: &[usize], least: usize) -> Option<usize>
    ensures to { IfSome result (λ to. to ≡ (edge_of fork one).to) }
    ensures first { IfSome result (λ to. one ≡ true → last_of lasts.now fork.zero.to < least) }
{
    if !one {
        return Some(fork.zero.to);
    }
    if last_at(lasts, fork.zero.to) >= least {
        return None;
    }
    Some(fork.one.to)
}

/// Returns the node to which the choices lead next, and how many of them are used up there. `None`
/// means that they lead no further, or that a choice isn't the first to an outcome.
fn next(
    nodes: &[Node],
    lasts: &[usize],
    least: usize,
    choices: &[bool],
    at: usize,
    used: usize,
) -> Option<(usize, usize)>
    ensures { IfSome result (λ p. LeadFirst nodes.now lasts.now least (take used choices.now) at →
        LeadFirst nodes.now lasts.now least (take p.1 choices.now) p.0) }
{
    if at >= nodes.len() {
        return None;
    }
    match fork_of(nodes[at]) {
        None => None,
        Some(fork) => {
            if fork.chance == 0 {
                return Some((fork.zero.to, used));
            }
            if used >= choices.len() {
                return None;
            }
            match first_node(fork, choices[used], lasts, least) {
                Some(to) => Some((to, used + 1)),
                None => None,
            }
        }
    }
}

/// Returns whether all choices are used at a node that has ended.
fn is_over(nodes: &[Node], choices: &[bool], at: usize, used: usize) -> bool
    ensures ended { result ≡ true → slice_get nodes.now at ≡ Some ends }
    ensures used { result ≡ true → used ≡ length choices.now }
{
    at < nodes.len() && fork_of(nodes[at]).is_none() && used == choices.len()
}

/// Returns true only if no run comes before these choices that has their outcome, if the ended
/// nodes with this outcome have no number below `least`. At most as many nodes are passed as there
/// are.
#[tactic(auto, using(crate::proofs::FirstLaws::first_start))]
fn are_soonest(nodes: &[Node], lasts: &[usize], least: usize, choices: &[bool]) -> bool
    ensures { result ≡ true → ShowSoonest nodes.now lasts.now least choices.now }
{
    let mut at = 0;
    let mut used = 0;
    'steps: for step in 0..nodes.len() {
        if is_over(nodes, choices, at, used) {
            return true;
        }
        match next(nodes, lasts, least, choices, at, used) {
            None => return false,
            Some((node, more)) => {
                at = node;
                used = more;
            }
        }
    }
    is_over(nodes, choices, at, used)
}

/// Returns whether this is the text of the end of runs at the limit.
fn is_limit(end: &[u8]) -> bool
    ensures { result ≡ false → end.now ≡ end_text at_limit → ⊥ }
{
    end == b"LIMIT".as_slice()
}

/// Returns ranks that have the numbers of nodes.
#[tactic(auto, using(crate::proofs::Ranking::numbers_none))]
fn ranks(alloc: Global, lasts: &[usize]) -> Result<Vec<Rank>, NoMemory>
    ensures { IfOk result (λ ranks. HaveNumbers lasts.now ranks.items) }
{
    let mut ranks = Vec::new(alloc);
    'nodes: for at in 0..lasts.len() {
        add_rank(
            &mut ranks,
            Rank {
                breadth: lasts[at],
                depth: lasts[at],
            },
        )?;
    }
    Ok(ranks)
}

/// Numbers of nodes, and rows that have as their ranks the least numbers of their nodes.
#[derive(Drop)]
pub(crate) struct Numbered {
    pub(crate) lasts: Vec<usize>,
    pub(crate) rows: Vec<Row>,
}

/// Returns the numbers of the nodes of an answer.
fn number_rows<'c, P: States<'c>>(
    alloc: Global,
    program: &P,
    answer: &Answer<P::State>,
) -> Result<Numbered, ChainError>
    requires { IsAnswer (P.text program.now) (P.seen program.now) (P.suits program.now)
        answer.now }
    ensures { IfOk result (λ numbered. IsNumberedBy (P.text program.now)
        (states_in (P.seen program.now) answer.now.chain.states.items)
        answer.now.chain.nodes.items numbered) }
{
    let chain = &answer.chain;
    let lasts = find_lasts(alloc, &chain.nodes)?;
    if lasts.len() != chain.nodes.len() || !are_lasts(&chain.nodes, &lasts) {
        return Err(ChainError::NotSolved);
    }
    let ranks = ranks(alloc, &lasts)?;
    let rows = rows_at(
        alloc,
        program,
        &chain.states,
        &chain.nodes,
        &answer.visits,
        &ranks,
    )?;
    Ok(Numbered { lasts, rows })
}

/// Checks that the run that is shown for a row is the first, if the row has a count.
fn check_row(
    nodes: &[Node],
    numbered: &Numbered,
    at: usize,
    row: &Row,
    count: &Option<Natural>,
    choices: &[bool],
) -> Result<(), ChainError>
    ensures { OnOk result ((p : Program) (ss : List Meant) (s : Meant) (n : ℕ) →
        IsFull p ss nodes.now → slice_get ss 0 ≡ Some s → IsNumberedBy p ss nodes.now numbered.now →
        option_map natural count.now ≡ Some n →
        IsSoonest p s row.now.output.items row.now.end.items choices.now) }
{
    if count.is_none() {
        return Ok(());
    }
    if at >= numbered.rows.len() || is_limit(row.end.as_slice()) {
        return Err(ChainError::NotSolved);
    }
    let ranked = &numbered.rows[at];
    if is_row(ranked, row) && are_soonest(nodes, &numbered.lasts, ranked.rank.breadth, choices) {
        return Ok(());
    }
    Err(ChainError::NotSolved)
}

/// Returns whether some row has a count.
#[tactic(auto, using(crate::proofs::FirstLaws::counts_none))]
fn has_count(counts: &[Option<Natural>]) -> bool
    ensures { result ≡ false → HasNoCount counts.now }
{
    'counts: for at in 0..counts.len() {
        if counts[at].is_some() {
            return true;
        }
    }
    false
}

/// Checks for each row of an answer with a count that no run with its outcome comes before the one
/// that is shown. `NotSolved` means that the rows, counts and runs aren't those that
/// `list_outcomes` and `count_rows` returned.
pub(crate) fn check_firsts<'c, P: States<'c>>(
    alloc: Global,
    program: &P,
    answer: &Answer<P::State>,
    rows: &[Row],
    counts: &[Option<Natural>],
    shown: &[Vec<bool>],
) -> Result<(), ChainError>
    requires { IsAnswer (P.text program.now) (P.seen program.now) (P.suits program.now)
        answer.now }
    ensures { OnOk result ((s : Meant) →
        slice_get (states_in (P.seen program.now) answer.now.chain.states.items) 0 ≡ Some s →
        AreSoonest (P.text program.now) s (rows_of rows.now) (counts_of counts.now)
        (choices_of shown.now)) }
{
    if !has_count(counts) {
        return Ok(());
    }
    if counts.len() != rows.len() || shown.len() != rows.len() {
        return Err(ChainError::NotSolved);
    }
    let numbered = number_rows(alloc, program, answer)?;
    'rows: for at in 0..rows.len() {
        check_row(
            &answer.chain.nodes,
            &numbered,
            at,
            &rows[at],
            &counts[at],
            &shown[at],
        )?;
    }
    Ok(())
}
