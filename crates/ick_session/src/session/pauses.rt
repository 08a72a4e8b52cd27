//! Whether a session stands at a breakpoint, and whether its run can go on.

use crate::session::Session;
use ick_bits::NoMemory;
use ick_machine::{Ask, Asks};

impl<'c, 'a> Session<'c, 'a> {
    ghost use Rattle.std.specs.Prelude.{◌≡◌, ◌≤◌, IfOk, is_some, length};
    ghost use Rattle.ick_code.specs.meaning.Move.{ask, choice};
    ghost use Rattle.ick_step.specs.Seen.{Seen, present};
    ghost use Rattle.ick_session.specs.Session.{seen, settings};
    ghost use Rattle.ick_session.specs.Travel.{goes_on, is_at_breakpoint, next_answer};

    /// Returns whether this number of steps was made, and a further one can be.
    pub(crate) fn goes_on(&mut self, before: usize, most: u32) -> Result<bool, NoMemory>
        requires { before ≤ length (seen self.old).answers }
        ensures settings { settings self.new ≡ settings self.old }
        ensures seen { seen self.new ≡ seen self.old }
        ensures goes { IfOk result (λ goes. (s : Seen) → length s.answers ≡ before →
            goes ≡ goes_on (settings self.old) most s (seen self.old)) }
    {
        if self.steps() - before != most as usize {
            return Ok(false);
        }
        if self.left() == 0 {
            return Ok(false);
        }
        if self.is_at_breakpoint() {
            return Ok(false);
        }
        self.can_step()
    }

    /// Returns whether a further step can be made: the run hasn't ended, and no choice is asked
    /// that isn't given.
    fn can_step(&mut self) -> Result<bool, NoMemory>
        ensures settings { settings self.new ≡ settings self.old }
        ensures seen { seen self.new ≡ seen self.old }
        ensures can { IfOk result (λ can.
            can ≡ is_some (next_answer (settings self.old).given (seen self.old))) }
    {
        match self.history.machine().asks() {
            Ask::Plain => Ok(true),
            Ask::Choice(chance) => self.is_given(chance),
            Ask::Ended(_) => Ok(false),
        }
    }

    /// Returns whether the run is given the choice of this chance, which is asked.
    fn is_given(&mut self, chance: u8) -> Result<bool, NoMemory>
        requires { let s = seen self.old in ask s.program (present s) ≡ choice chance }
        ensures settings { settings self.new ≡ settings self.old }
        ensures seen { seen self.new ≡ seen self.old }
        ensures given { IfOk result (λ given.
            given ≡ is_some (next_answer (settings self.old).given (seen self.old))) }
    {
        // The number of the next choice is that of the choices so far.
        self.law();
        let choice = self.given.choice(self.chosen, chance)?;
        Ok(choice.is_some())
    }

    /// Returns whether the statement that is met next has a breakpoint. After the end none is met.
    pub(crate) fn is_at_breakpoint(&self) -> bool
        ensures { result ≡ is_at_breakpoint (settings self.now) (seen self.now) }
    {
        match self.history.machine().asks() {
            Ask::Ended(_) => false,
            _ => self.has_breakpoint(self.place()),
        }
    }
}
