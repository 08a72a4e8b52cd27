//! The answer to each command.

use crate::commands::Command;
use crate::session::Session;
use ick_inspect::{LineColumn, Text};
use ick_machine::Backtrack;
use ick_step::RunsError;
use ick_syntax::Statement;
use std::alloc::Global;

impl<'c, 'a> Session<'c, 'a> {
    ghost use Rattle.std.specs.Prelude.{◌≡◌, ◌⊎◌, ◌<◌, ◌≤◌, ◌+◌, ◌^◌, ℕ, true, false, IfErr, OnOk};
    ghost use Rattle.std.specs.Prelude.{is_some, length, List};
    ghost use Rattle.ick_inspect.specs.Text.{Adds};
    ghost use Rattle.ick_session.specs.Answers.{Answers, StopsShort, shown};
    ghost use Rattle.ick_session.specs.Commands.{moves, order_of};
    ghost use Rattle.ick_syntax.specs.StatementTree.{statement_trees};
    ghost use Rattle.ick_session.specs.Session.{HasNoRoom, most_work, seen, settings};

    /// Does a command, and appends the answer. `Quit` does nothing and has no answer. There is a
    /// position for each statement of the program, and `statements` are its statements.
    ///
    /// The refusals are `NoMemory`, and `WorkFull` if the count of work has no room for the steps
    /// that a command may make. After `WorkFull` nothing has changed. A command that makes no steps
    /// is never refused by `WorkFull`. After `NoMemory` a command has made its steps as far as
    /// memory allowed.
    pub fn answer(
        &mut self,
        alloc: Global,
        positions: &[LineColumn],
        statements: &[Statement<'_>],
        command: Command<'_>,
        out: &mut Text,
    ) -> Result<(), RunsError>
        requires positions { length positions.now ≡ length (seen self.old).program }
        requires statements { statement_trees statements.now ≡ (seen self.old).program }
        ensures fixed { settings self.new ≡ record (settings self.old) {
          breakpoints = (settings self.new).breakpoints;
        } }
        ensures few { let s = seen self.old in
            (seen self.new).work ≤ s.work + most_work self.old.limit s }
        ensures errors { IfErr result (λ e. (e ≡ RunsError.NoMemory) ⊎ ((e ≡ RunsError.WorkFull)
            × (moves (order_of command.entry) ≡ true)
            × HasNoRoom self.old.limit (seen self.old) × (seen self.new ≡ seen self.old))) }
        ensures shows { is_some (shown positions.now (seen self.old) (order_of command.entry))
            ≡ true → (self.new ≡ self.old) × IfErr result (λ e. e ≡ RunsError.NoMemory) }
        ensures short { IfErr result (λ e. (settings self.new ≡ settings self.old)
            × (e ≡ RunsError.NoMemory → StopsShort (settings self.old) (seen self.old)
            (order_of command.entry) (seen self.new))) }
        ensures answers { OnOk result ((text : List ℕ)
            × Answers (settings self.old) positions.now (seen self.old)
            (order_of command.entry) (settings self.new) (seen self.new) text
            × Adds out.old out.new text) }
    {
        if self.answer_shown(alloc, positions, command, out)? {
            return Ok(());
        }
        if self.answer_breakpoint(positions, statements, command, out)? {
            return Ok(());
        }
        if let Command::Eval(text) = command {
            self.answer_eval(alloc, text, out)?;
            return Ok(());
        }
        if self.is_full() {
            return Err(RunsError::WorkFull);
        }
        self.answer_move(alloc, positions, command, out)
    }

    /// Returns whether the count of work has no room for the steps that a command may make.
    fn is_full(&self) -> bool
        ensures full { result ≡ true → HasNoRoom self.now.limit (seen self.now) }
        ensures room { let s = seen self.now in
            result ≡ false → s.work + (most_work self.now.limit s + 1000) < 2 ^ 64 }
    {
        let most = self.left() as u64 + self.steps() as u64 + 3000;
        u64::MAX - self.history.machine().work() < most
    }
}
