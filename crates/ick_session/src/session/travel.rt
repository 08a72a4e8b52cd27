//! Steps until a session comes to a target, to a breakpoint, or can go no further.

use crate::name_snapshot::NameSnapshot;
use crate::session::Session;
use ick_inspect::{place, return_addresses};
use ick_machine::{Ask, Asks};
use ick_step::RunsError;

/// Where steps lead to.
#[derive(Clone, Copy)]
pub enum Target<'h> {
    /// As far as they may.
    Nowhere,
    /// To a statement, which is met next.
    Statement(u32),
    /// To a NEXT stack of at most so many return addresses.
    Depth(usize),
    /// To a change of what a name has.
    Change(&'h NameSnapshot),
}

impl<'c, 'a> Session<'c, 'a> {
    ghost use Rattle.std.specs.Prelude.{◌≡◌, ◌⊎◌, ◌<◌, ◌≤◌, ◌+◌, true, false, None, IfErr, IfOk};
    ghost use Rattle.std.specs.Prelude.{OnErr, OnOk, length, min};
    ghost use Rattle.ick_code.specs.meaning.Move.{ask, choice};
    ghost use Rattle.ick_step.specs.Seen.{present};
    ghost use Rattle.ick_session.specs.Given.{given_by};
    ghost use Rattle.ick_session.specs.Session.{IsStepError, seen, settings};
    ghost use Rattle.ick_session.specs.Travel.{CameSoFar, Steps, StopsFirst, comes, has_come};
    ghost use Rattle.ick_session.specs.Travel.{last_statement, next_answer, steps_left};

    /// Makes at most `most` steps, with the choices that the run is given. It stops as soon as a
    /// step has led to the target. It also stops at a choice that isn't given, at the end of the
    /// run and at the limit on its steps. Returns the statement of the last step, or 0 if no step
    /// was made.
    pub(crate) fn travel(&mut self, target: &Target<'_>, most: u32) -> Result<u32, RunsError>
        ensures fixed { settings self.new ≡ settings self.old }
        ensures few { let s = seen self.old in
            (seen self.new).work ≤ s.work + steps_left self.old.limit s }
        ensures errors { IfErr result (IsStepError (seen self.new)) }
        ensures short { OnErr result (CameSoFar (settings self.old) (has_come target.now)
            (seen self.old) (seen self.new)) }
        ensures stops { let s = seen self.old in OnOk result (StopsFirst (given_by self.old.given)
            (comes (settings self.old) (has_come target.now))
            (min most (steps_left self.old.limit s)) s (seen self.new)) }
        ensures last { let t = seen self.new in IfOk result (λ last.
            length (seen self.old).answers < length t.answers → last ≡ last_statement t) }
    {
        let limit = most.min(self.left());
        let mut last = 0;
        for _made in 0..limit {
            let statement = self.place();
            if !self.step()? {
                return Ok(last);
            }
            last = statement;
            if self.has_come(target) {
                return Ok(last);
            }
        }
        Ok(last)
    }

    /// Makes a step, unless the run has ended or a choice is asked that isn't given. Returns
    /// whether a step was made.
    fn step(&mut self) -> Result<bool, RunsError>
        ensures fixed { settings self.new ≡ settings self.old }
        ensures few { (seen self.new).work ≤ (seen self.old).work + 1 }
        ensures errors { IfErr result (IsStepError (seen self.new)) }
        ensures refused { OnErr result ((seen self.new ≡ seen self.old)
            ⊎ Steps (given_by self.old.given) (seen self.old) (seen self.new)) }
        ensures made { IfOk result (λ made. made ≡ true →
            Steps (given_by self.old.given) (seen self.old) (seen self.new)) }
        ensures not_made { IfOk result (λ made. made ≡ false →
            (seen self.new ≡ seen self.old)
            × (next_answer (given_by self.old.given) (seen self.old) ≡ None)) }
    {
        match self.history.machine().asks() {
            Ask::Plain => {
                let _made = self.history.step(1)?;
                Ok(true)
            }
            Ask::Choice(chance) => self.choose_given(chance),
            Ask::Ended(_) => Ok(false),
        }
    }

    /// Makes the step at which a choice of this chance is asked, if the run is given the choice.
    /// Returns whether the run is given it.
    fn choose_given(&mut self, chance: u8) -> Result<bool, RunsError>
        requires { let s = seen self.old in ask s.program (present s) ≡ choice chance }
        ensures fixed { settings self.new ≡ settings self.old }
        ensures few { (seen self.new).work ≤ (seen self.old).work + 1 }
        ensures errors { IfErr result (IsStepError (seen self.new)) }
        ensures refused { OnErr result (seen self.new ≡ seen self.old) }
        ensures made { IfOk result (λ made. made ≡ true →
            Steps (given_by self.old.given) (seen self.old) (seen self.new)) }
        ensures not_made { IfOk result (λ made. made ≡ false →
            (seen self.new ≡ seen self.old)
            × (next_answer (given_by self.old.given) (seen self.old) ≡ None)) }
    {
        // `made` needs that the next choice is the one at the number of those so far.
        self.law();
        let Some(done) = self.given.choice(self.chosen, chance)? else {
            return Ok(false);
        };
        self.choose(done)
    }

    /// Returns whether the session has come to a target, or to a breakpoint.
    fn has_come(&self, target: &Target<'_>) -> bool
        ensures { result
            ≡ comes (settings self.now) (has_come target.now) (present (seen self.now)) }
    {
        if self.has_breakpoint(self.place()) {
            return true;
        }
        self.is_at(target)
    }

    /// Returns whether the session has come to a target.
    fn is_at(&self, target: &Target<'_>) -> bool
        ensures { result ≡ has_come target.now (present (seen self.now)) }
    {
        let present = self.history.machine().present();
        match target {
            Target::Nowhere => false,
            Target::Statement(statement) => place(&present) == *statement,
            Target::Depth(depth) => return_addresses(&present).len() <= *depth,
            Target::Change(held) => !held.is_in(&present),
        }
    }
}
