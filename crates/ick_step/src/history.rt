//! A run that is stepped through.

ghost use Rattle.std.specs.Prelude.{◌≡◌, ◌↔◌, ◌⊎◌, ℕ, ◌+◌, ◌-◌, ◌<◌, ◌≤◌, ◌^◌, ◌++◌, [], true};
ghost use Rattle.std.specs.Prelude.{false, length, take, Some, Err, IfOk, IfErr, OnOk, OnErr};
ghost use Rattle.ick_step.specs.Seen.{IsKept};

use crate::backward::go_back;
use crate::choosing::{choose, collect_choices};
use crate::forward::go_on;
use ick_backtrack::{Asks, Backtrack};
use ick_bits::NoMemory;
use ick_explorer::{RunsError, append_choices};
use std::alloc::Global;

/// A machine with marks, and the answer that each of its steps was given. So the steps can be taken
/// back, one by one or many at once.
///
/// The session keeps a byte or two for each step, and marks the state before each thousandth step.
/// Closer marks would take more memory. Marks aren't thinned out as they get older, so going back
/// makes at most 1,000 steps again, wherever it leads.
#[derive(Drop)]
pub struct History<M: Backtrack> {
    machine: M,
    answers: Vec<Option<bool>>,
    ghost kept: { ∥ IsKept (M.seen machine) answers.items ∥₁ },
}

impl<M: Backtrack> History<M> {
    ghost use Rattle.ick_code.specs.meaning.Move.{ask};
    ghost use Rattle.ick_explorer.specs.ChoiceTexts.{choices_text};
    ghost use Rattle.ick_explorer.specs.Paths.{Leads};
    ghost use Rattle.ick_backtrack.specs.Steps.{IsPlain, Rests};
    ghost use Rattle.ick_step.specs.History.{IsHistory, asks_choice, choices_in};
    ghost use Rattle.ick_step.specs.Seen.{present, later, with_answer, IsFull};
    ghost use Rattle.ick_step.specs.Histories.{history};

    /// Returns a session that begins in the machine's state. The machine must have no marks.
    pub fn start(alloc: Global, machine: M) -> Self
        requires { (M.seen machine).marks ≡ [] }
        ensures { history result ≡ record {
          program = (M.seen machine).program;
          start = (M.seen machine).state;
          answers = [];
          work = (M.seen machine).work;
        } }
    {
        History {
            machine,
            answers: Vec::new(alloc),
        }
    }

    /// States that the machine has made the steps with these answers, and where its marks are. Each
    /// method calls it, because the answer or a call is about these steps.
    fn law(&self)
        ensures { IsKept (M.seen self.now.machine) self.now.answers.items }
    {}

    /// Returns the machine, whose state is the session's.
    pub fn machine(&self) -> &M
        ensures program { (M.seen result.now).program ≡ (history self.now).program }
        ensures state { (M.seen result.now).state ≡ present (history self.now) }
        ensures work { (M.seen result.now).work ≡ (history self.now).work }
    {
        self.law();
        &self.machine
    }

    /// Returns the answer of each step: the choice, or `None` if nothing was asked.
    pub fn answers(&self) -> &[Option<bool>]
        ensures answers { result.now ≡ (history self.now).answers }
        ensures history { let s = history self.now in IsHistory s.program s.start result.now }
    {
        self.law();
        &self.answers
    }

    /// Makes steps while nothing is asked and the run hasn't ended, at most as many as the limit.
    /// Returns their number.
    ///
    /// The refusals are `WorkFull`, exactly if the count of work has less than the limit left, and
    /// `NoMemory`. After `WorkFull` nothing has changed. After `NoMemory` at most as many steps
    /// were made as the limit allows, each of them whole.
    pub fn step<'c>(&mut self, limit: u32) -> Result<u32, RunsError>
    where
        M: Asks<'c>,
        ensures work_full { result ≡ Err RunsError.WorkFull ↔ IsFull (history self.old) limit }
        ensures errors { IfErr result (λ e. (e ≡ RunsError.NoMemory)
            ⊎ ((e ≡ RunsError.WorkFull) × (history self.new ≡ history self.old))) }
        ensures ok { IfOk result (λ k. history self.new ≡ later k (history self.old)) }
        ensures within { IfOk result (λ k. k ≤ limit) }
        ensures rests { IfOk result (λ k.
            Rests IsPlain (history self.new).program limit k (present (history self.new))) }
        ensures no_memory { result ≡ Err RunsError.NoMemory →
            (k : ℕ) × (k ≤ limit) × (history self.new ≡ later k (history self.old)) }
    {
        self.law();
        if u64::MAX - self.machine.work() < limit as u64 {
            return Err(RunsError::WorkFull);
        }
        let made = go_on(&mut self.machine, &mut self.answers, limit)?;
        Ok(made)
    }

    /// Makes one step at which a choice is asked, and answers the choice. Returns whether a choice
    /// was asked. If none was, nothing has changed.
    ///
    /// The refusals are `WorkFull`, exactly if the count of work is at its greatest value, and
    /// `NoMemory`. After each of them nothing has changed.
    pub fn choose<'c>(&mut self, done: bool) -> Result<bool, RunsError>
    where
        M: Asks<'c>,
        ensures work_full { result ≡ Err RunsError.WorkFull ↔ IsFull (history self.old) 1 }
        ensures errors { IfErr result (λ e. (e ≡ RunsError.NoMemory)
            ⊎ (e ≡ RunsError.WorkFull)) }
        ensures refused { IfErr result (λ _. history self.new ≡ history self.old) }
        ensures chosen { IfOk result (λ chosen. chosen ≡ true →
            history self.new ≡ with_answer (Some done) (history self.old)) }
        ensures not_asked { IfOk result (λ chosen. chosen ≡ false →
            history self.new ≡ history self.old) }
        ensures asked { let s = history self.old in
            IfOk result (λ chosen. chosen ≡ asks_choice (ask s.program (present s))) }
    {
        self.law();
        if u64::MAX - self.machine.work() < 1 {
            return Err(RunsError::WorkFull);
        }
        let chosen = choose(&mut self.machine, &mut self.answers, done)?;
        Ok(chosen)
    }

    /// Takes steps back: this number, or all if fewer were made. The state is then that of so many
    /// steps before, whole. At most 1,000 steps are made again.
    ///
    /// The refusals are `WorkFull`, exactly if the count of work has less than 1,000 left, and
    /// `NoMemory`. After `WorkFull` nothing has changed. After `NoMemory` more steps were taken
    /// back.
    pub fn back(&mut self, steps: usize) -> Result<(), RunsError>
        ensures work_full { result ≡ Err RunsError.WorkFull ↔ IsFull (history self.old) 1000 }
        ensures errors { IfErr result (λ e. (e ≡ RunsError.NoMemory)
            ⊎ ((e ≡ RunsError.WorkFull) × (history self.new ≡ history self.old))) }
        ensures ok { OnOk result ((history self.new).answers
            ≡ take (length (history self.old).answers - steps) (history self.old).answers) }
        ensures no_memory { result ≡ Err RunsError.NoMemory →
            (n : ℕ) × (n < length (history self.old).answers - steps)
            × ((history self.new).answers ≡ take n (history self.old).answers) }
        ensures program { (history self.new).program ≡ (history self.old).program }
        ensures start { (history self.new).start ≡ (history self.old).start }
        ensures rises { (history self.old).work ≤ (history self.new).work }
        ensures few { (history self.new).work ≤ (history self.old).work + 1000 }
    {
        self.law();
        if u64::MAX - self.machine.work() < 1000 {
            return Err(RunsError::WorkFull);
        }
        let target = self.answers.len().saturating_sub(steps);
        go_back(&mut self.machine, &mut self.answers, target)?;
        Ok(())
    }

    /// Takes all steps back. The state is then the one that the session began in.
    ///
    /// The only refusal is `WorkFull`, exactly if the count of work has less than 1,000 left. After
    /// it nothing has changed.
    pub fn restart(&mut self) -> Result<(), RunsError>
        ensures work_full { result ≡ Err RunsError.WorkFull ↔ IsFull (history self.old) 1000 }
        ensures errors { IfErr result (λ e. (e ≡ RunsError.WorkFull)
            × (history self.new ≡ history self.old)) }
        ensures ok { OnOk result ((history self.new).answers ≡ []) }
        ensures program { (history self.new).program ≡ (history self.old).program }
        ensures start { (history self.new).start ≡ (history self.old).start }
        ensures few { (history self.new).work ≤ (history self.old).work + 1000 }
    {
        let steps = self.answers.len();
        self.back(steps)
    }

    /// Returns the choices that were answered. The run with these choices from the state that the
    /// session began in comes to the session's state after as many steps as the session has made,
    /// whatever the limit and the choices that follow. `NoMemory` is the only refusal.
    pub fn choices(&self, alloc: Global) -> Result<Vec<bool>, NoMemory>
        ensures choices { IfOk result (λ c. c.items ≡ choices_in (history self.now).answers) }
        ensures leads { let s = history self.now in IfOk result (λ c. (limit : ℕ) →
            length s.answers ≤ limit →
            Leads s.program s.start limit c.items (present s) (length s.answers)) }
    {
        self.law();
        collect_choices(alloc, &self.answers)
    }

    /// Appends the text of these choices, which `Cursor::from_text` reads. `NoMemory` is the only
    /// refusal, and leaves the text unchanged.
    pub fn append_cursor(&self, alloc: Global, out: &mut Vec<u8>) -> Result<(), NoMemory>
        ensures ok { OnOk result (out.new.items
            ≡ out.old.items ++ choices_text (choices_in (history self.now).answers)) }
        ensures err { OnErr result (out.new.items ≡ out.old.items) }
    {
        let choices = self.choices(alloc)?;
        append_choices(out, &choices)
    }
}
