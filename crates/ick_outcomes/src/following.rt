//! Follows one run, and says which statements asked for its choices.

ghost use Rattle.std.specs.Prelude.{◌≡◌, ◌++◌, ◌<◌, ◌≤◌, codes, length, None, Ok};
ghost use Rattle.std.specs.Prelude.{IfOk, IfSome, OnOk};
ghost use Rattle.ick_code.specs.meaning.State.{State};
ghost use Rattle.ick_code.specs.meaning.Move.{choice, plain};
ghost use Rattle.ick_outcomes.specs.Programs.{ask, Program, IsWhole};
ghost use Rattle.ick_backtrack.specs.Asked.{finish_of};
ghost use Rattle.ick_explorer.specs.Lines.{line_of};
ghost use Rattle.ick_outcomes.specs.Askers.{AsksWithin, IsFollowed, asked_line, asker_text};

use crate::outcome::end_word;
use crate::states::States;
use ick_backtrack::{Ask, End};
use ick_bits::{NoMemory, append_decimal, append_quoted};
use ick_explorer::append_choices;
use std::alloc::Global;

/// Limits the choices of a line that says which statements asked for them.
const MOST_ASKED: usize = 10_000;

/// The statement that asked for a choice: its number, and its chance in hundredths.
#[derive(Clone, Copy)]
pub struct AskedBy {
    pub statement: u32,
    pub chance: u8,
}

/// A run that was followed to its end: its last state, its end, and the statements that asked for
/// its choices.
#[derive(Drop)]
pub struct FollowedRun<'c, S: Drop> {
    pub state: S,
    pub end: End<'c>,
    pub asked: Vec<AskedBy>,
}

/// Returns that nothing is asked, or the end `Limit` if no step is left.
fn plain_within<'c>(left: u32) -> Ask<'c>
    ensures { (p : Program) (s : State) → ask p s ≡ plain → AsksWithin p s left result }
{
    if left == 0 {
        return Ask::Ended(End::Limit);
    }
    Ask::Plain
}

/// Returns that a choice is asked, or the end `Limit` if no step is left.
fn choice_within<'c>(chance: u8, left: u32) -> Ask<'c>
    ensures { (p : Program) (s : State) → ask p s ≡ choice chance
        → AsksWithin p s left result }
{
    if left == 0 {
        return Ask::Ended(End::Limit);
    }
    Ask::Choice(chance)
}

/// Returns what is asked before the next step, or the end `Limit` if a run that goes on has no step
/// left.
fn asks_within<'c, P: States<'c>>(program: &P, state: &P::State, left: u32) -> Ask<'c>
    requires { P.suits program.now state.now }
    ensures { AsksWithin (P.seen program.now state.now).program
        (P.seen program.now state.now).state left result }
{
    match program.asks(state) {
        Ask::Ended(end) => Ask::Ended(end),
        Ask::Plain => plain_within(left),
        Ask::Choice(chance) => choice_within(chance, left),
    }
}

/// Follows the run with these choices from a state, under a limit on steps. Returns `None` if the
/// choices aren't whole: the run wants more of them, or leaves some over. The state must be of the
/// program, and the tools must be for it. The only refusal is out of memory.
pub fn follow<'c, P: States<'c>>(
    alloc: Global,
    program: &P,
    tools: &mut P::Tools,
    state: P::State,
    limit: u32,
    choices: &[bool],
) -> Result<Option<FollowedRun<'c, P::State>>, NoMemory>
    requires tools { P.serves program.now tools.old }
    requires state { P.suits program.now state }
    ensures followed { IfOk result (λ found. IfSome found (λ run.
        IsFollowed (P.seen program.now state).program (P.seen program.now state).state limit
        choices.now (P.seen program.now run.state).state (finish_of run.end) run.asked.items)) }
    ensures none { result ≡ Ok None → ¬ IsWhole (P.seen program.now state).program
        (P.seen program.now state).state limit choices.now }
    ensures tools { P.serves program.now tools.new }
{
    let mut state = state;
    let mut asked = Vec::new(alloc);
    let mut left = limit;
    'steps: loop {
        match asks_within(program, &state, left) {
            Ask::Ended(end) => return Ok(whole(state, end, asked, choices)),
            Ask::Plain => {
                let (next, made) = program.step(tools, state, false, left - 1)?;
                state = next;
                left -= made + 1;
            }
            Ask::Choice(chance) => {
                let at = asked.len();
                if at == choices.len() {
                    return Ok(None);
                }
                let statement = program.statement(&state);
                asked.push(AskedBy { statement, chance })?;
                let (next, made) = program.step(tools, state, choices[at], left - 1)?;
                state = next;
                left -= made + 1;
            }
        }
    }
}

/// Returns a run that has ended, or `None` if it leaves choices over.
fn whole<'c, S: Drop>(
    state: S,
    end: End<'c>,
    asked: Vec<AskedBy>,
    choices: &[bool],
) -> Option<FollowedRun<'c, S>>
    ensures some { IfSome result (λ run. (run.state ≡ state) × (run.end ≡ end.entry)
        × (run.asked.items ≡ asked.items) × (length choices.now ≤ length asked.items)) }
    ensures none { result ≡ None → length asked.items < length choices.now }
{
    if asked.len() < choices.len() {
        return None;
    }
    Some(FollowedRun { state, end, asked })
}

/// Returns the line of a run that was followed, as a listing shows it, without its line end. The
/// only refusal is out of memory.
#[tactic(auto, unfolding(ick_explorer::specs::Lines::line_of))]
pub fn run_line<'c, P: States<'c>>(
    alloc: Global,
    program: &P,
    followed: &FollowedRun<'c, P::State>,
    choices: &[bool],
) -> Result<Vec<u8>, NoMemory>
    ensures { IfOk result (λ line. line.items ++ codes "\n" ≡ line_of choices.now
        (finish_of followed.now.end)
        (P.seen program.now followed.now.state).state.output) }
{
    let end = end_word(alloc, followed.end)?;
    let mut line = Vec::new(alloc);
    append_choices(&mut line, choices)?;
    line.push(b' ')?;
    line.extend_from_slice(&end)?;
    line.push(b' ')?;
    append_quoted(&mut line, program.output(&followed.state))?;
    Ok(line)
}

/// Appends `STATEMENT:CHANCE`.
fn append_asker(out: &mut Vec<u8>, asker: AskedBy) -> Result<(), NoMemory>
    ensures { OnOk result (out.new.items ≡ out.old.items ++ asker_text asker) }
{
    append_decimal(out, u64::from(asker.statement))?;
    out.push(b':')?;
    append_decimal(out, u64::from(asker.chance))
}

/// Returns the line of the statements that asked for choices: `STATEMENT:CHANCE` for each of the
/// first 10,000, with a blank between two. The only refusal is out of memory.
pub fn asked_text(alloc: Global, asked: &[AskedBy]) -> Result<Vec<u8>, NoMemory>
    ensures { IfOk result (λ text. text.items ≡ asked_line asked.now) }
{
    let mut text = Vec::new(alloc);
    'askers: for at in 0..asked.len().min(MOST_ASKED) {
        if at > 0 {
            text.push(b' ')?;
        }
        append_asker(&mut text, asked[at])?;
    }
    text.push(b'\n')?;
    Ok(text)
}
