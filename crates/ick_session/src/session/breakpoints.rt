//! The breakpoints of a session, and the answers to the commands that change them.

use crate::commands::Command;
use crate::labels::place_of;
use crate::session::Session;
use crate::shown::{append_last, append_set, has_statement, last};
use ick_bits::NoMemory;
use ick_inspect::{LineColumn, Text};
use ick_syntax::Statement;

impl<'c, 'a> Session<'c, 'a> {
    ghost use Rattle.std.specs.Prelude.{◌≡◌, ℕ, true, false, IfOk, OnErr, OnOk, length, List};
    ghost use Rattle.ick_inspect.specs.Text.{Adds};
    ghost use Rattle.ick_session.specs.Breakpoints.{AnswersBreakpoint, Sets, has_statement};
    ghost use Rattle.ick_session.specs.Breakpoints.{is_breakpoint};
    ghost use Rattle.ick_session.specs.Breakpoints.{set_text};
    ghost use Rattle.ick_syntax.specs.StatementTree.{statement_trees};
    ghost use Rattle.ick_session.specs.Commands.{to_break, to_break_label, to_delete, order_of};
    ghost use Rattle.ick_session.specs.Session.{seen, settings};

    /// Returns whether a statement has a breakpoint.
    pub(crate) fn has_breakpoint(&self, statement: u32) -> bool
        ensures { result ≡ (settings self.now).breakpoints statement }
    {
        self.breakpoints.has(statement)
    }

    /// Sets or deletes breakpoints, and appends the answer. Returns whether the command is one that
    /// does. After a refusal of memory nothing has changed.
    pub(crate) fn answer_breakpoint(
        &mut self,
        positions: &[LineColumn],
        statements: &[Statement<'_>],
        command: Command<'_>,
        out: &mut Text,
    ) -> Result<bool, NoMemory>
        requires positions { length positions.now ≡ length (seen self.old).program }
        requires statements { statement_trees statements.now ≡ (seen self.old).program }
        ensures seen { seen self.new ≡ seen self.old }
        ensures other { IfOk result (λ is. is ≡ false → (settings self.new ≡ settings self.old)
            × (out.new ≡ out.old) × (is_breakpoint (order_of command.entry) ≡ false)) }
        ensures refused { OnErr result (settings self.new ≡ settings self.old) }
        ensures answers { IfOk result (λ is. is ≡ true → (text : List ℕ)
            × AnswersBreakpoint (settings self.old) positions.now (order_of command.entry)
            (settings self.new) text
            × Adds out.old out.new text) }
    {
        match command {
            Command::Break(statement) => {
                self.set_breakpoint(positions, statement, out)?;
                Ok(true)
            }
            Command::BreakLabel(label) => {
                self.set_at_label(positions, statements, label, out)?;
                Ok(true)
            }
            Command::Delete(statement) => {
                self.delete_breakpoint(statement, out);
                Ok(true)
            }
            Command::DeleteAll => {
                self.breakpoints.clear();
                out.push(b"no breakpoint is left\n");
                Ok(true)
            }
            _ => Ok(false),
        }
    }

    /// Sets a breakpoint, if there is a statement with this number.
    fn set_breakpoint(
        &mut self,
        positions: &[LineColumn],
        statement: u32,
        out: &mut Text,
    ) -> Result<(), NoMemory>
        requires { length positions.now ≡ length (seen self.old).program }
        ensures seen { seen self.new ≡ seen self.old }
        ensures refused { OnErr result (settings self.new ≡ settings self.old) }
        ensures answers { OnOk result ((text : List ℕ)
            × AnswersBreakpoint (settings self.old) positions.now (to_break statement)
            (settings self.new) text
            × Adds out.old out.new text) }
    {
        if !has_statement(&self.history.machine().present(), statement) {
            append_last(out, &self.history.machine().present());
            return Ok(());
        }
        self.set_at(positions, statement, out)
    }

    /// Sets a breakpoint at the statement with a label, if there is one.
    fn set_at_label(
        &mut self,
        positions: &[LineColumn],
        statements: &[Statement<'_>],
        label: u32,
        out: &mut Text,
    ) -> Result<(), NoMemory>
        requires positions { length positions.now ≡ length (seen self.old).program }
        requires statements { statement_trees statements.now ≡ (seen self.old).program }
        ensures seen { seen self.new ≡ seen self.old }
        ensures refused { OnErr result (settings self.new ≡ settings self.old) }
        ensures answers { OnOk result ((text : List ℕ)
            × AnswersBreakpoint (settings self.old) positions.now (to_break_label label)
            (settings self.new) text
            × Adds out.old out.new text) }
    {
        let place = place_of(statements, label);
        if place > last(&self.history.machine().present()) as usize {
            out.push(b"no statement has this label\n");
            return Ok(());
        }
        self.set_at(positions, place as u32, out)
    }

    /// Sets a breakpoint at a statement that is there.
    fn set_at(
        &mut self,
        positions: &[LineColumn],
        statement: u32,
        out: &mut Text,
    ) -> Result<(), NoMemory>
        requires positions { length positions.now ≡ length (seen self.old).program }
        requires there { has_statement (seen self.old).program statement ≡ true }
        ensures seen { seen self.new ≡ seen self.old }
        ensures refused { OnErr result (settings self.new ≡ settings self.old) }
        ensures sets { OnOk result (Sets statement true (settings self.old) (settings self.new)) }
        ensures text { OnOk result (Adds out.old out.new
            (set_text (seen self.old).program positions.now statement)) }
    {
        self.breakpoints.set(statement)?;
        append_set(out, positions, &self.history.machine().present(), statement);
        Ok(())
    }

    /// Deletes the breakpoint of a statement, if there is one.
    fn delete_breakpoint(&mut self, statement: u32, out: &mut Text)
        ensures seen { seen self.new ≡ seen self.old }
        ensures answers { (positions : List LineColumn) → (text : List ℕ)
            × AnswersBreakpoint (settings self.old) positions (to_delete statement)
            (settings self.new) text
            × Adds out.old out.new text }
    {
        if self.breakpoints.has(statement) {
            self.breakpoints.delete(statement);
            out.push(b"breakpoint deleted\n");
        } else {
            out.push(b"no breakpoint is there\n");
        }
    }
}
