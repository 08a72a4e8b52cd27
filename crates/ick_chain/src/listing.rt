//! Lists the outcomes of a program without a limit, as text.

ghost use Rattle.std.specs.Prelude.{◌≡◌, ◌<◌, ℕ, List, Some, Ok, Err, slice_get, IfOk, IfSome};
ghost use Rattle.std.specs.Prelude.{IfNone};
ghost use Rattle.ick_code.specs.meaning.State.{State as Meant};
ghost use Rattle.ick_outcomes.specs.Programs.{Program};
ghost use Rattle.ick_numbers.specs.Values.{natural, naturals};
ghost use Rattle.ick_chain.specs.Answers.{IsAnswer};
ghost use Rattle.ick_chain.specs.Chains.{IsExact, all_steps, never as forever, passing};
ghost use Rattle.ick_chain.specs.ExactListings.{AreLines, IsExactListing, IsTextOf};
ghost use Rattle.ick_chain.specs.Fewest.{AreFewest};
ghost use Rattle.ick_chain.specs.Limits.{Test};
ghost use Rattle.ick_chain.specs.Lines.{lines_of};
ghost use Rattle.ick_chain.specs.Places.{IsFull, state_or, states_in};
ghost use Rattle.ick_chain.specs.Kept.{KeepsMore};
ghost use Rattle.ick_chain.specs.Progress.{OnlyShows};
ghost use Rattle.ick_chain.specs.Reached.{HasMoreStates};
ghost use Rattle.ick_chain.specs.Rows.{AreRows, rows_of};
ghost use Rattle.ick_chain.specs.Shown.{AreShown, NeverEnds, choices_of};

use crate::answer::{Answer, weigh};
use crate::chain::Node;
use crate::counting::count_rows;
use crate::endless::show_endless;
use crate::errors::ChainError;
use crate::firsts::check_firsts;
use crate::line::{Line, make_lines, sort_lines};
use crate::line_text::list_text;
use crate::outcomes::{Outcomes, list_outcomes};
use crate::progress::Progress;
use crate::row::Row;
use crate::total::total_text;
use ick_numbers::Natural;
use ick_outcomes::States;
use std::alloc::Global;

/// Returns the lines of the rows of an answer, with their numbers of runs, in the order of the runs
/// that are shown for them.
fn sorted_lines<'c, P: States<'c>>(
    alloc: Global,
    program: &P,
    answer: &Answer<P::State>,
    rows: Vec<Row>,
    shown: &[Vec<bool>],
    first: &[Vec<bool>],
) -> Result<Vec<Line>, ChainError>
    requires { IsAnswer (P.text program.now) (P.seen program.now) (P.suits program.now)
        answer.now }
    ensures { IfOk result (λ lines. (s : Meant) (parts never steps : ℕ) (weight : Test → ℕ) →
        slice_get (states_in (P.seen program.now) answer.now.chain.states.items) 0 ≡ Some s →
        IsExact (P.text program.now) s parts weight never steps →
        AreRows weight (rows_of rows.items) →
        AreFewest (P.text program.now) s (rows_of rows.items) (choices_of shown.now) →
        AreShown (P.text program.now) s (rows_of rows.items) (choices_of first.now) →
        AreLines (P.text program.now) s parts never (lines_of lines.items)) }
{
    let counts = count_rows(alloc, program, answer, &rows)?;
    show_endless(alloc, program, answer, &rows, &counts)?;
    check_firsts(alloc, program, answer, &rows, &counts, first)?;
    let mut lines = make_lines(alloc, rows, &counts, shown, first)?;
    sort_lines(&mut lines)?;
    Ok(lines)
}

/// Returns the lines as text, or the line that says how many outcomes and runs there are.
fn text_of(
    alloc: Global,
    nodes: &[Node],
    parts: &Natural,
    lines: &[Line],
    never: &Natural,
    stuck: &Option<Vec<bool>>,
    exact: bool,
    total: bool,
    silent: bool,
) -> Result<Vec<u8>, ChainError>
    requires some { 0 < natural parts.now }
    requires ends { IfNone stuck.now (natural never.now ≡ 0) }
    ensures { IfOk result (λ text. (p : Program) (states : List Meant) (s : Meant) →
        silent ≡ p.silent → IsFull p states nodes.now → slice_get states 0 ≡ Some s →
        IfSome stuck.now (λ choices. NeverEnds p s choices.items) →
        IsTextOf p s exact total (natural parts.now) (natural never.now) (lines_of lines.now)
        text.items) }
{
    if total {
        return total_text(alloc, nodes, lines, never);
    }
    list_text(alloc, parts, lines, never, stuck, exact, silent)
}

/// Returns the listing of an answer that `weigh` returned for this program, as text.
fn answer_text<'c, P: States<'c>>(
    alloc: Global,
    program: &P,
    answer: &Answer<P::State>,
    exact: bool,
    total: bool,
) -> Result<Vec<u8>, ChainError>
    requires { IsAnswer (P.text program.now) (P.seen program.now) (P.suits program.now)
        answer.now }
    ensures { IfOk result (λ text. (s : Meant) →
        slice_get (states_in (P.seen program.now) answer.now.chain.states.items) 0 ≡ Some s →
        IsExact (P.text program.now) s (natural answer.now.parts)
        (λ q. passing (λ i. q (state_or s
        (states_in (P.seen program.now) answer.now.chain.states.items) i))
        answer.now.chain.nodes.items (naturals answer.now.visits.items))
        (forever answer.now.chain.nodes.items (naturals answer.now.visits.items))
        (all_steps answer.now.chain.nodes.items (naturals answer.now.visits.items)) →
        IsExactListing (P.text program.now) s exact total text.items) }
{
    let Outcomes {
        rows,
        shown,
        first,
        never,
        stuck,
    } = list_outcomes(alloc, program, answer)?;
    let lines = sorted_lines(alloc, program, answer, rows, &shown, &first)?;
    let nodes = &answer.chain.nodes;
    text_of(
        alloc,
        nodes,
        &answer.parts,
        &lines,
        &never,
        &stuck,
        exact,
        total,
        program.is_silent(),
    )
}

/// Returns a text, or `NoMemory`, or `NotSolved` in place of each other refusal.
pub(crate) fn unsearched(text: Result<Vec<u8>, ChainError>) -> Result<Vec<u8>, ChainError>
    ensures text { IfOk result (λ found. text ≡ Ok found) }
    ensures many { (steps : ℕ) → result ≡ Err (ChainError.TooManyStates steps) → ⊥ }
    ensures much { result ≡ Err ChainError.TooMuchKept → ⊥ }
{
    match text {
        Ok(found) => Ok(found),
        Err(ChainError::NoMemory) => Err(ChainError::NoMemory),
        Err(_) => Err(ChainError::NotSolved),
    }
}

/// Returns the listing of the outcomes of a program without a limit on steps, as text: a line
/// `COUNT WEIGHT FIRST END OUTPUT` for each outcome, in the order of the choices, then a line for
/// the runs that never end, if they weigh anything, and then `DONE`. FIRST is the first run of the
/// outcome in the order of the listing. If the runs are infinitely many, COUNT is `*`, and FIRST is
/// the first of the runs with the fewest choices. With `exact` each weight is whole. With `total`
/// it returns one line with the numbers of outcomes and runs, and with the mean number of steps if
/// they are infinitely many and none never ends. If the output of the program is left out, so is
/// OUTPUT.
///
/// The other arguments and the refusals are those of `weigh`. `NotSolved` also means that something
/// that was found failed a check. No program is known that gets that.
pub fn exact_listing<'c, P: States<'c>, E: Progress>(
    alloc: Global,
    program: &P,
    tools: &mut P::Tools,
    state: P::State,
    stretch: u32,
    most: usize,
    memory: u64,
    exact: bool,
    total: bool,
    progress: &mut E,
) -> Result<Vec<u8>, ChainError>
    requires tools { P.serves program.now tools.old }
    requires state { P.suits program.now state }
    requires stretch { stretch < 4294967295 }
    ensures text { IfOk result (λ text. IsExactListing (P.text program.now)
        (P.seen program.now state).state exact total text.items) }
    ensures many { (steps : ℕ) → result ≡ Err (ChainError.TooManyStates steps) →
        HasMoreStates (P.text program.now) (P.seen program.now state).state most steps }
    ensures much { result ≡ Err ChainError.TooMuchKept → KeepsMore (P.text program.now)
        (P.seen program.now) (P.suits program.now) (P.size program.now)
        (P.seen program.now state).state memory }
    ensures shown { OnlyShows E.told E.failed E.written E.shows progress.old progress.new }
{
    let answer = weigh(
        alloc, program, tools, state, stretch, most, memory, progress,
    )?;
    unsearched(answer_text(alloc, program, &answer, exact, total))
}
