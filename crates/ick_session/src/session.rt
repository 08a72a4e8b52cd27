//! A session with the choices that its run is given, and the answer to each command.
//!
//! | Module | What it has |
//! |---|---|
//! | `travel` | steps to a target |
//! | `pauses` | whether the session is at a breakpoint, and whether its run can go on |
//! | `breakpoints` | the commands of breakpoints |
//! | `shown` | the commands that show a part of the session |
//! | `moves` | the commands that move the session |
//! | `answers` | the answer to each command |

ghost use Rattle.ick_session.specs.Counted.{Counts};

mod answers;
mod breakpoints;
mod moves;
mod pauses;
mod shown;
mod travel;

use crate::breakpoints::Breakpoints;
use crate::counted::count_choices;
use crate::given::Given;
use ick_inspect::{place, return_addresses};
use ick_machine::{Backtrack, Trailed};
use ick_step::{History, RunsError};
use std::alloc::Global;

/// A session, and the choices that its run is given.
#[derive(Drop)]
pub struct Session<'c, 'a> {
    history: History<Trailed<'c, 'a>>,
    given: Given,
    /// How many choices the session has answered.
    chosen: usize,
    /// The greatest number of steps that the session may have made.
    limit: u32,
    /// The statements at which steps stop.
    breakpoints: Breakpoints,
    ghost kept: { ∥ Counts history chosen ∥₁ },
}

impl<'c, 'a> Session<'c, 'a> {
    ghost use Rattle.std.specs.Prelude.{◌≡◌, ◌≤◌, ◌+◌, ◌-◌, true, false, Some, IfErr, IfOk, OnErr};
    ghost use Rattle.std.specs.Prelude.{OnOk, [], length};
    ghost use Rattle.ick_code.specs.meaning.Move.{ask};
    ghost use Rattle.ick_machine.specs.Seen.{trailed_machine};
    ghost use Rattle.ick_step.specs.History.{asks_choice, choices_in};
    ghost use Rattle.ick_step.specs.Seen.{present, with_answer};
    ghost use Rattle.ick_session.specs.Given.{given_by};
    ghost use Rattle.ick_session.specs.Session.{IsStepError, no_breakpoint, seen, settings};
    ghost use Rattle.ick_session.specs.Travel.{IsAt, IsBefore, steps_left};

    /// Returns a session that begins in the machine's state, which must have no marks. It may make
    /// as many steps as the limit.
    pub fn new(alloc: Global, machine: Trailed<'c, 'a>, given: Given, limit: u32) -> Session<'c, 'a>
        requires { (trailed_machine machine).marks ≡ [] }
        ensures session { let m = trailed_machine machine.entry in seen result ≡ record {
          program = m.program;
          start = m.state;
          answers = [];
          work = m.work;
        } }
        ensures fixed { let m = trailed_machine machine.entry in settings result ≡ record {
          program = m.program;
          start = m.state;
          given = given_by given;
          limit = limit;
          breakpoints = no_breakpoint;
        } }
    {
        Session {
            history: History::start(alloc, machine),
            given,
            chosen: 0,
            limit,
            breakpoints: Breakpoints::new(alloc),
        }
    }

    /// States that the choices are counted.
    fn law(&self)
        ensures { self.now.chosen ≡ length (choices_in (seen self.now).answers) }
    {}

    /// Returns how many steps were made.
    pub fn steps(&self) -> usize
        ensures { result ≡ length (seen self.now).answers }
    {
        self.history.answers().len()
    }

    /// Returns how many further steps may be made.
    fn left(&self) -> u32
        ensures { result ≡ steps_left self.now.limit (seen self.now) }
    {
        let limit = self.limit as usize;
        let left = limit.saturating_sub(self.steps());
        left as u32
    }

    /// Takes steps back.
    fn back(&mut self, steps: usize) -> Result<(), RunsError>
        ensures fixed { settings self.new ≡ settings self.old }
        ensures few { (seen self.new).work ≤ (seen self.old).work + 1000 }
        ensures errors { IfErr result (IsStepError (seen self.new)) }
        ensures short { OnErr result (IsBefore (seen self.old) (seen self.new)) }
        ensures back { let s = seen self.old in
            OnOk result (IsAt s (seen self.new) (length s.answers - steps)) }
    {
        let gone = self.history.back(steps);
        self.chosen = count_choices(self.history.answers());
        gone
    }

    /// Makes the step at which a choice is asked. Returns whether one is asked.
    fn choose(&mut self, done: bool) -> Result<bool, RunsError>
        ensures fixed { settings self.new ≡ settings self.old }
        ensures few { (seen self.new).work ≤ (seen self.old).work + 1 }
        ensures errors { IfErr result (IsStepError (seen self.new)) }
        ensures refused { OnErr result (seen self.new ≡ seen self.old) }
        ensures asked { let s = seen self.old in
            IfOk result (λ chosen. chosen ≡ asks_choice (ask s.program (present s))) }
        ensures chosen { IfOk result (λ chosen. chosen ≡ true →
            seen self.new ≡ with_answer (Some done) (seen self.old)) }
        ensures not_chosen { IfOk result (λ chosen. chosen ≡ false →
            seen self.new ≡ seen self.old) }
    {
        // The sum below has to fit: there are fewer choices than steps.
        self.law();
        if !self.history.choose(done)? {
            return Ok(false);
        }
        self.chosen = self.chosen.saturating_add(1);
        Ok(true)
    }

    /// Returns the number of the statement that is met next.
    fn place(&self) -> u32
        ensures { result ≡ (present (seen self.now)).place }
    {
        place(&self.history.machine().present())
    }

    /// Returns how many return addresses there are.
    fn depth(&self) -> usize
        ensures { result ≡ length (present (seen self.now)).returns }
    {
        return_addresses(&self.history.machine().present()).len()
    }

    /// Returns how many bytes were printed.
    fn printed(&self) -> usize
        ensures { result ≡ length (present (seen self.now)).output }
    {
        self.history.machine().output().len()
    }
}
