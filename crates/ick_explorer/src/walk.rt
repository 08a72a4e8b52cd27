//! Leads a machine from one run to the next.

ghost use Rattle.std.specs.Prelude.{◌≡◌, false, true, ℕ, ◌+◌, ◌-◌, ◌<◌};
ghost use Rattle.std.specs.Prelude.{◌≤◌, ◌^◌, [], ◌∷◌, ◌++◌};
ghost use Rattle.std.specs.Prelude.{length, None, Some, IfOk, IfSome, IfNone, OnOk};
ghost use Rattle.ick_code.specs.meaning.State.{State};
ghost use Rattle.ick_backtrack.specs.Asked.{Finish};
ghost use Rattle.ick_explorer.specs.Runs.{IsWhole};
ghost use Rattle.ick_explorer.specs.Marked.{IsMarked};
ghost use Rattle.ick_explorer.specs.Standing.{StandsFrom, position_of, has_failed};
ghost use Rattle.ick_explorer.specs.Walks.{IsChoosing, IsOver, EndsHere, Moves, given_by, Ends};
ghost use Rattle.ick_explorer.specs.Walks.{IsStranded, Finds, Follows};

use crate::path::{Path, Progress};
use ick_backtrack::{Ask, Asks, Backtrack};
use ick_bits::NoMemory;

/// Makes step `steps + 1` by the choice `done`, and adds the choice to the path. If the choice is a
/// zero, this call first marks the state before the step. The machine must ask a choice, and
/// `steps` must be below `limit`.
#[inline(always)]
fn choose<M: Backtrack>(
    machine: &mut M,
    path: &mut Path,
    limit: u32,
    steps: u32,
    done: bool,
) -> Result<(), NoMemory>
    requires choosing { IsChoosing (M.seen machine.old) }
    requires below { steps < limit }
    requires room { (M.seen machine.old).work < 2 ^ 64 - 1 }
    ensures program { (M.seen machine.new).program ≡ (M.seen machine.old).program }
    ensures choice { OnOk result
        (path.new.choices ≡ path.old.choices ++ done ∷ []) }
    ensures moves { OnOk result (Moves limit
        (M.seen machine.old) path.old.choices path.old.points.items steps
        (M.seen machine.new) path.new.choices path.new.points.items (steps + 1)) }
{
    path.choices.push(done)?;
    if !done {
        machine.mark()?;
        path.points.push(steps)?;
    }
    machine.step(done)
}

/// Where a machine is led from the state that it is in.
#[derive(Clone, Copy)]
pub(crate) enum Way<'a> {
    /// By a zero at each choice.
    Zeros,
    /// By these choices.
    Along(&'a [bool]),
}

impl<'a> Way<'a> {
    /// Returns the choice after `used` choices, or `None` if no choice is left.
    #[inline(always)]
    fn at(self, used: usize) -> Option<bool>
        ensures { result ≡ given_by self.entry used }
    {
        match self {
            Way::Zeros => Some(false),
            Way::Along(choices) => choices.get(used).copied(),
        }
    }
}

/// Leads the machine until the run ends, or until a choice is asked that the way doesn't have.
/// `start` counts the steps made before this call, and must be at most `limit`. Returns the number
/// of steps made from the start of the run, or `None` if the run hasn't ended.
#[inline(always)]
pub(crate) fn lead<'c, M: Asks<'c>>(
    machine: &mut M,
    path: &mut Path,
    limit: u32,
    start: u32,
    way: Way<'_>,
) -> Result<Option<u32>, NoMemory>
    requires within { start ≤ limit }
    requires room { (M.seen machine.old).work + limit < 2 ^ 64 + start }
    ensures program { (M.seen machine.new).program ≡ (M.seen machine.old).program }
    ensures over { IfOk result (λ found. IfSome found (λ steps. Ends way.entry limit
        (M.seen machine.old) path.old.choices path.old.points.items start
        (M.seen machine.new) path.new.choices path.new.points.items steps)) }
    ensures stranded { IfOk result (λ found. IfNone found ((steps : ℕ) × IsStranded way.entry limit
        (M.seen machine.old) path.old.choices path.old.points.items start
        (M.seen machine.new) path.new.choices path.new.points.items steps)) }
{
    let mut steps = start;
    let mut used = 0;
    'on: loop {
        let asked = machine.asks();
        if let Ask::Ended(_) = asked {
            return Ok(Some(steps));
        }
        if steps == limit {
            return Ok(Some(steps));
        }
        if let Ask::Choice(_) = asked {
            let Some(done) = way.at(used) else {
                return Ok(None);
            };
            match choose(machine, path, limit, steps, done) {
                Ok(()) => {}
                Err(NoMemory) => return Err(NoMemory),
            }
            used += 1;
            steps += 1;
            continue;
        }
        match machine.run(limit - steps) {
            Ok(made) => steps += made,
            Err(NoMemory) => return Err(NoMemory),
        }
    }
}

/// Drops all marks and clears the path.
pub(crate) fn reset<M: Backtrack>(machine: &mut M, path: &mut Path)
    ensures marks { (M.seen machine.new).marks ≡ [] }
    ensures choices { path.new.choices ≡ [] }
    ensures points { path.new.points.items ≡ [] }
    ensures program { (M.seen machine.new).program ≡ (M.seen machine.old).program }
{
    while machine.marks() > 0 {
        machine.drop_mark();
    }
    path.choices.clear();
    path.points.clear();
}

/// Moves to the run after the explorer's position, and returns its number of steps. The machine is
/// set back to the last zero of the run before, and does its statement. The explorer must not have
/// failed, and a further run must exist. The answer is `NoMemory` if this call runs out of memory.
pub(crate) fn find<'c, M: Asks<'c>>(
    machine: &mut M,
    path: &mut Path,
    limit: u32,
    progress: Progress,
) -> Result<u32, NoMemory>
    requires sound { has_failed progress ≡ false }
    requires marked { IsMarked limit
        (M.seen machine.old) path.old.choices path.old.points.items }
    requires none { progress ≡ Progress.Fresh → path.old.choices ≡ [] }
    requires more { progress ≡ Progress.Given → 0 < length path.old.points.items }
    requires room { (M.seen machine.old).work + limit < 2 ^ 64 }
    ensures program { (M.seen machine.new).program ≡ (M.seen machine.old).program }
    ensures marked { IfOk result (λ _. IsMarked limit
        (M.seen machine.new) path.new.choices path.new.points.items) }
    ensures within { IfOk result (λ _.
        (M.seen machine.new).work ≤ (M.seen machine.old).work + limit) }
    ensures over { IfOk result (IsOver limit (M.seen machine.new)) }
    ensures found { IfOk result (λ r. (finish : Finish) →
        EndsHere limit (M.seen machine.new) r finish → (s : State) →
        StandsFrom (M.seen machine.old).program s limit (position_of progress path.old.choices)
        (M.seen machine.old).state (M.seen machine.old).marks path.old.points.items →
        Finds s limit (position_of progress path.old.choices)
        (M.seen machine.old) (M.seen machine.new) path.new.choices path.new.points.items
        r finish) }
{
    let start = match progress {
        Progress::Fresh => 0,
        Progress::Given => {
            path.choices.turn();
            let steps = path.points.pop().unwrap();
            machine.back();
            match machine.step(true) {
                Ok(()) => steps + 1,
                Err(NoMemory) => return Err(NoMemory),
            }
        }
        Progress::Spent => unreachable!(),
    };
    match lead(machine, path, limit, start, Way::Zeros) {
        Ok(Some(steps)) => Ok(steps),
        Ok(None) => unreachable!(),
        Err(NoMemory) => Err(NoMemory),
    }
}
