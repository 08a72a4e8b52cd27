//! Lists the runs of a program, each once, in the order of their choices.

ghost use Rattle.std.specs.Prelude.{◌≡◌, ◌↔◌, ◌+◌, ◌<◌, ◌≤◌, ◌^◌};
ghost use Rattle.std.specs.Prelude.{◌⊎◌, [], true, false, Bool, List, length, Some, None, Ok};
ghost use Rattle.std.specs.Prelude.{Err, IfOk, IfErr, IfSome, IfNone, IsSome, OnOk};
ghost use Rattle.std.proofs.Props.{props};
ghost use Rattle.ick_explorer.specs.Marked.{HasMarks, IsPlaced};

use crate::choices::Choices;
use crate::cursor::Cursor;
use crate::errors::RunsError;
use crate::lines::LineBuilder;
use crate::path::{Path, Progress};
use crate::run::Run;
use crate::walk::{self, Way};
use ick_backtrack::{Ask, Asks, Backtrack, End};
use ick_bits::NoMemory;
use ick_devices::{ByteSink, write_whole};
use std::alloc::Global;

/// Lists the runs of a machine's program from the machine's state. Each run is listed once, in the
/// order of their choices. In this order 0 comes before 1 (this profile).
///
/// The explorer's position is before all runs, after the run last returned, or after the run of the
/// cursor. The explorer keeps a mark for each zero in the choices of the run before its position.
/// To find the next run it sets the machine back to the last mark. So the explorer makes a step
/// that two neighbouring runs share only once.
///
/// The explorer has failed if a call of `next` or `write_runs` has answered `NoMemory`. A failed
/// explorer keeps no mark, and `more` is false. Each further call of `next` or `write_runs` answers
/// `Failed`.
#[derive(Drop)]
pub struct Explorer<M: Backtrack> {
    machine: M,
    limit: u32,
    path: Path,
    progress: Progress,
    alloc: Global,
    ghost marked: { HasMarks limit (M.seen machine) path } by { Prim.hlevel props },
    ghost placed: { IsPlaced progress path.choices } by { Prim.hlevel props },
}

impl<M: Backtrack> Explorer<M> {
    ghost use Rattle.std.specs.Prelude.{ℕ};
    ghost use Rattle.ick_explorer.specs.Explorers.{explored};
    ghost use Rattle.ick_code.specs.meaning.State.{State};
    ghost use Rattle.ick_explorer.specs.Runs.{IsWhole};
    ghost use Rattle.ick_explorer.specs.Standing.{Stands, HasMore, IsAtLast, HasFailed, Gives};
    ghost use Rattle.ick_explorer.specs.Standing.{IsListingAt};
    ghost use Rattle.ick_explorer.specs.Standing.{IsFull, IsMachineFull, Resumes, zeros_of};
    ghost use Rattle.ick_backtrack.specs.Asked.{Finish, finish_of};
    ghost use Rattle.ick_explorer.specs.Writes.{write_failures};
    ghost use Rattle.ick_explorer.specs.WritingSteps.{Moves, WritesNext};
    ghost use Rattle.ick_explorer.specs.Walks.{EndsHere, IsOver, Reaches};

    /// Returns an explorer before the first run from the machine's state. Each run has at most
    /// `limit` steps. The machine must have no marks. This call makes no step.
    pub fn start(alloc: Global, machine: M, limit: u32) -> Self
        requires { (M.seen machine).marks ≡ [] }
        ensures start { explored result ≡ record {
          program = (M.seen machine).program;
          limit = limit;
          from = None;
          present = (M.seen machine).state;
          marks = [];
          points = [];
          work = (M.seen machine).work;
          failed = false;
        } }
        ensures stands { Stands (M.seen machine).state (explored result) }
    {
        Explorer {
            machine,
            limit,
            path: Path {
                choices: Choices::new(alloc),
                points: Vec::new(alloc),
            },
            progress: Progress::Fresh,
            alloc,
        }
    }

    /// Returns an explorer after the run of `cursor`, among the runs from the machine's state. Each
    /// run has at most `limit` steps. The machine must have no marks. This call leads the machine
    /// along the cursor's run once, and sets a mark at each zero.
    ///
    /// Each refusal drops the machine. `WorkFull` comes before the others. The refusals are:
    ///
    /// - `WorkFull` exactly if the machine's count of work has less than `limit` left.
    /// - `NoSuchRun` if the cursor's choices are not the choices of a run. Either the choices end
    ///   before the run ends, or choices are left over at its end.
    /// - `NoMemory` if this call runs out of memory.
    pub fn after<'c>(
        alloc: Global,
        machine: M,
        limit: u32,
        cursor: &Cursor,
    ) -> Result<Self, RunsError>
    where
        M: Asks<'c>,
        requires { (M.seen machine).marks ≡ [] }
        ensures work_full { result ≡ Err RunsError.WorkFull
            ↔ IsMachineFull (M.seen machine) limit }
        ensures errors { IfErr result (λ e. (e ≡ RunsError.NoMemory)
            ⊎ ((e ≡ RunsError.NoSuchRun) ⊎ (e ≡ RunsError.WorkFull))) }
        ensures no_such_run { result ≡ Err RunsError.NoSuchRun →
            ¬ IsWhole (M.seen machine).program (M.seen machine).state limit cursor.now }
        ensures ok { IfOk result (λ e. Resumes (M.seen machine) limit cursor.now (explored e)) }
    {
        let mut machine = machine;
        if u64::MAX - machine.work() < limit as u64 {
            return Err(RunsError::WorkFull);
        }
        let mut path = Path {
            choices: Choices::new(alloc),
            points: Vec::new(alloc),
        };
        let choices = cursor.choices();
        let led = match walk::lead(&mut machine, &mut path, limit, 0, Way::Along(choices)) {
            Err(NoMemory) => return Err(RunsError::NoMemory),
            Ok(led) => led,
        };
        if led.is_none() || path.choices.as_slice().len() != choices.len() {
            return Err(RunsError::NoSuchRun);
        }
        Ok(Explorer {
            machine,
            limit,
            path,
            progress: Progress::Given,
            alloc,
        })
    }

    /// Returns the machine's count of work: its first value plus the steps made since.
    pub fn work(&self) -> u64
        ensures { result ≡ (explored self.now).work }
    {
        self.machine.work()
    }

    /// Returns the number of marks kept: one for each zero in the choices of the run before the
    /// explorer's position. The number is 0 before all runs, after the last run, and after a
    /// failure.
    pub fn points(&self) -> usize
        ensures zeros { result ≡ zeros_of (explored self.now).from }
        ensures few { (s : State) → Stands s (explored self.now) →
            result ≤ (explored self.now).limit }
        ensures of_choices { IfSome (explored self.now).from (λ c. result ≤ length c) }
    {
        self.path.points.len()
    }

    /// Returns whether the explorer has failed, because it ran out of memory.
    pub(crate) fn has_failed(&self) -> bool
        ensures { result ≡ (explored self.now).failed }
    {
        matches!(self.progress, Progress::Spent)
    }

    /// Fails the explorer and drops all marks and choices. The program and the limit stay
    /// unchanged.
    pub(crate) fn fail(&mut self)
        ensures failed { HasFailed (explored self.new) }
        ensures program { (explored self.new).program ≡ (explored self.old).program }
        ensures limit { (explored self.new).limit ≡ (explored self.old).limit }
    {
        walk::reset(&mut self.machine, &mut self.path);
        self.progress = Progress::Spent;
    }

    /// Returns whether a further run exists. The answer is false if the explorer has failed.
    pub fn more(&self) -> bool
        ensures failed { (explored self.now).failed ≡ true → result ≡ false }
        ensures further { (s : State) → Stands s (explored self.now) →
            result ≡ true → HasMore s (explored self.now) }
        ensures last { (s : State) → Stands s (explored self.now) →
            result ≡ false → IsAtLast s (explored self.now) }
    {
        match self.progress {
            Progress::Fresh => true,
            Progress::Given => !self.path.points.is_empty(),
            Progress::Spent => false,
        }
    }

    /// Returns the next run: the least run after the explorer's position. Returns `None` if no run
    /// is left. The count of work rises by the steps of the run that the run before doesn't share.
    ///
    /// The refusals are, in this order:
    ///
    /// - `Failed` if the explorer has failed. Nothing changes.
    /// - `WorkFull` if the count of work has less than the limit left, even if no run is left.
    ///   Nothing changes.
    /// - `NoMemory` if this call runs out of memory. The explorer has then failed.
    pub fn next<'c>(&mut self) -> Result<Option<Run<'c>>, RunsError>
    where
        M: Asks<'c>,
        ensures failed { result ≡ Err RunsError.Failed ↔ (explored self.old).failed ≡ true }
        ensures work_full { result ≡ Err RunsError.WorkFull
            ↔ (((explored self.old).failed ≡ false) × IsFull (explored self.old)) }
        ensures errors { IfErr result (λ e. (e ≡ RunsError.NoMemory)
            ⊎ ((e ≡ RunsError.Failed) ⊎ (e ≡ RunsError.WorkFull))) }
        ensures refused { IfErr result (λ e.
            (e ≡ RunsError.NoMemory) ⊎ (explored self.new ≡ explored self.old)) }
        ensures no_memory { result ≡ Err RunsError.NoMemory → HasFailed (explored self.new) }
        ensures some { IfOk result (λ found. IfSome found (λ r.
            (s : State) → Stands s (explored self.old) →
            Gives s (explored self.old) r (explored self.new))) }
        ensures none { IfOk result (λ found.
            IfNone found ((explored self.new ≡ explored self.old)
            × ((s : State) → Stands s (explored self.old) → IsAtLast s (explored self.old)))) }
        ensures none_left { IfOk result (λ found.
            IfNone found (zeros_of (explored self.new).from ≡ 0)) }
        ensures not_first { IfOk result (λ found. IfNone found (IsSome (explored self.old).from)) }
        ensures sound { IfOk result (λ _. (explored self.new).failed ≡ false) }
        ensures room { IfOk result (λ _.
            (explored self.old).work + (explored self.old).limit < 2 ^ 64) }
        ensures begun { result ≡ Err RunsError.NoMemory →
            (explored self.old).work + (explored self.old).limit < 2 ^ 64 }
        ensures within { IfOk result (λ _.
            (explored self.new).work ≤ (explored self.old).work + (explored self.old).limit) }
        ensures program { (explored self.new).program ≡ (explored self.old).program }
        ensures limit { (explored self.new).limit ≡ (explored self.old).limit }
    {
        let steps = match self.advance() {
            Err(refused) => return Err(refused),
            Ok(None) => return Ok(None),
            Ok(Some(steps)) => steps,
        };
        let end = self.end_here();
        match self.copy_run(steps, end) {
            Ok(run) => Ok(Some(run)),
            Err(NoMemory) => {
                self.fail();
                Err(RunsError::NoMemory)
            }
        }
    }

    /// Moves to the next run, and returns its number of steps. Returns `None` if no run is left.
    /// The refusals, and the state after each of them, are those of `next`.
    pub(crate) fn advance<'c>(&mut self) -> Result<Option<u32>, RunsError>
    where
        M: Asks<'c>,
        ensures failed { result ≡ Err RunsError.Failed ↔ (explored self.old).failed ≡ true }
        ensures work_full { result ≡ Err RunsError.WorkFull
            ↔ (((explored self.old).failed ≡ false) × IsFull (explored self.old)) }
        ensures errors { IfErr result (λ e. (e ≡ RunsError.NoMemory)
            ⊎ ((e ≡ RunsError.Failed) ⊎ (e ≡ RunsError.WorkFull))) }
        ensures refused { IfErr result (λ e.
            (e ≡ RunsError.NoMemory) ⊎ (explored self.new ≡ explored self.old)) }
        ensures no_memory { result ≡ Err RunsError.NoMemory → HasFailed (explored self.new) }
        ensures over { IfOk result (λ found.
            IfSome found (IsOver self.new.limit (M.seen self.new.machine))) }
        ensures some { IfOk result (λ found. IfSome found (λ steps. (finish : Finish) →
            EndsHere self.new.limit (M.seen self.new.machine) steps finish →
            (s : State) → Stands s (explored self.old) →
            Reaches s (explored self.old) (explored self.new) self.new.path.choices
            steps finish)) }
        ensures none { IfOk result (λ found.
            IfNone found ((explored self.new ≡ explored self.old)
            × ((s : State) → Stands s (explored self.old) → IsAtLast s (explored self.old)))) }
        ensures none_left { IfOk result (λ found.
            IfNone found (zeros_of (explored self.new).from ≡ 0)) }
        ensures not_first { IfOk result (λ found. IfNone found (IsSome (explored self.old).from)) }
        ensures sound { IfOk result (λ _. (explored self.new).failed ≡ false) }
        ensures room { IfOk result (λ _.
            (explored self.old).work + (explored self.old).limit < 2 ^ 64) }
        ensures begun { result ≡ Err RunsError.NoMemory →
            (explored self.old).work + (explored self.old).limit < 2 ^ 64 }
        ensures within { IfOk result (λ _.
            (explored self.new).work ≤ (explored self.old).work + (explored self.old).limit) }
        ensures program { (explored self.new).program ≡ (explored self.old).program }
        ensures limit { (explored self.new).limit ≡ (explored self.old).limit }
    {
        if let Progress::Spent = self.progress {
            return Err(RunsError::Failed);
        }
        if u64::MAX - self.machine.work() < self.limit as u64 {
            return Err(RunsError::WorkFull);
        }
        if let Progress::Given = self.progress {
            if self.path.points.is_empty() {
                return Ok(None);
            }
        }
        let progress = self.progress;
        match walk::find(&mut self.machine, &mut self.path, self.limit, progress) {
            Ok(found) => {
                self.progress = Progress::Given;
                Ok(Some(found))
            }
            Err(NoMemory) => {
                walk::reset(&mut self.machine, &mut self.path);
                self.progress = Progress::Spent;
                Err(RunsError::NoMemory)
            }
        }
    }

    /// Returns how the run at the explorer's position ends: as the machine answers, or at the
    /// limit.
    #[inline(always)]
    pub(crate) fn end_here<'c>(&self) -> End<'c>
    where
        M: Asks<'c>,
        ensures { (limit n : ℕ) → IsOver limit (M.seen self.now.machine) n →
            EndsHere limit (M.seen self.now.machine) n (finish_of result) }
    {
        match self.machine.asks() {
            Ask::Ended(end) => end,
            _ => End::Limit,
        }
    }

    /// Returns the run at the explorer's position, which has made this number of steps and has this
    /// end. The answer is `NoMemory` if this call runs out of memory.
    fn copy_run<'c>(&self, steps: u32, end: End<'c>) -> Result<Run<'c>, NoMemory>
        ensures choices { IfOk result (λ r. r.choices.items ≡ self.now.path.choices) }
        ensures output { IfOk result (λ r.
            r.output.items ≡ (explored self.now).present.output) }
        ensures end { IfOk result (λ r. finish_of r.end ≡ finish_of end.entry) }
        ensures steps { IfOk result (λ r. r.steps ≡ steps) }
    {
        let Ok(choices) = Vec::from_slice(self.alloc, self.path.choices.as_slice()) else {
            return Err(NoMemory);
        };
        let Ok(output) = Vec::from_slice(self.alloc, self.machine.output()) else {
            return Err(NoMemory);
        };
        Ok(Run {
            choices,
            output,
            end,
            steps,
        })
    }

    /// Writes the line of the next run if there is one. Returns whether there was one.
    /// The answer is `WorkFull`, `NoMemory` or `Write` if that part fails. The explorer must not
    /// have failed.
    pub(crate) fn write_next<'c, W: ByteSink>(
        &mut self,
        lines: &mut LineBuilder<'c>,
        writer: &mut W,
    ) -> Result<bool, RunsError>
    where
        M: Asks<'c>,
        requires sound { (explored self.old).failed ≡ false }
        requires room { W.failed writer.old + 1 < 2 ^ 64 }
        ensures moves { Moves (explored self.old) (explored self.new) result }
        ensures count { W.failed writer.new ≡ W.failed writer.old + write_failures result }
        ensures next { (s : State) (xs : List (List Bool)) → Stands s (explored self.old) →
            IsListingAt s (explored self.old) xs →
            WritesNext W.told s xs (explored self.old) (explored self.new)
            (W.written writer.old) (W.written writer.new) result }
    {
        if !self.more() {
            return Ok(false);
        }
        match self.advance() {
            Err(refused) => return Err(refused),
            Ok(None) => return Ok(false),
            Ok(Some(_)) => {}
        }
        let end = self.end_here();
        let built = lines.build(&mut self.path.choices, end, self.machine.output());
        if built.is_err() {
            self.fail();
            return Err(RunsError::NoMemory);
        }
        match write_whole(writer, lines.as_slice()) {
            Ok(()) => Ok(true),
            Err(_) => Err(RunsError::Write),
        }
    }
}
