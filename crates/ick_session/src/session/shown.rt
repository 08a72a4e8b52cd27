//! The parts of a session that commands show.

use crate::changes::{append_change, append_printed};
use crate::commands::{Command, name_of, next_word};
use crate::evaluated::append_evaluated;
use crate::help::help;
use crate::name_snapshot::NameSnapshot;
use crate::session::Session;
use crate::shown::{append_breakpoint, append_here, append_limit};
use ick_bits::NoMemory;
use ick_inspect::{LineColumn, Text, append_list, append_stack, append_state, append_variable};
use ick_machine::Backtrack;
use ick_syntax::Name;
use std::alloc::Global;

/// How many statements `list` shows before the one that is met next, and behind it.
const AROUND: u32 = 5;

impl<'c, 'a> Session<'c, 'a> {
    ghost use Rattle.std.specs.Prelude.{◌≡◌, ◌++◌, ℕ, false, Some, IfOk, OnOk, codes, is_some};
    ghost use Rattle.std.specs.Prelude.{length, List};
    ghost use Rattle.ick_explorer.specs.ChoiceTexts.{choices_text};
    ghost use Rattle.ick_inspect.specs.Names.{variable_text};
    ghost use Rattle.ick_inspect.specs.Statements.{list_text};
    ghost use Rattle.ick_inspect.specs.Summary.{variables_text};
    ghost use Rattle.ick_inspect.specs.Text.{Adds};
    ghost use Rattle.ick_step.specs.History.{choices_in};
    ghost use Rattle.ick_step.specs.Seen.{present};
    ghost use Rattle.ick_session.specs.Answers.{changed_text, shown};
    ghost use Rattle.ick_session.specs.Commands.{names_of, order_of};
    ghost use Rattle.ick_session.specs.Evaluated.{Evaluates};
    ghost use Rattle.ick_session.specs.NameSnapshot.{had};
    ghost use Rattle.ick_session.specs.Changes.{printed_text};
    ghost use Rattle.ick_session.specs.Session.{seen, settings};
    ghost use Rattle.ick_session.specs.Travel.{differs, where_text};

    /// Appends the output behind its first `before` bytes.
    pub(crate) fn append_printed(&self, printed: usize, out: &mut Text)
        ensures { Adds out.old out.new
            (printed_text printed (present (seen self.now))) }
    {
        append_printed(out, printed, &self.history.machine().present());
    }

    /// Appends where the run is, or how it has ended, and whether it has come to its limit.
    pub fn append_here(&self, positions: &[LineColumn], out: &mut Text)
        requires { length positions.now ≡ length (seen self.now).program }
        ensures { Adds out.old out.new
            (where_text (settings self.now) positions.now (seen self.now)) }
    {
        append_here(out, positions, self.steps(), self.history.machine());
        append_breakpoint(self.is_at_breakpoint(), out);
        append_limit(self.left(), out);
    }

    /// Appends the line of a name.
    fn append_name(&self, name: Name, out: &mut Text)
        ensures { Adds out.old out.new
            (variable_text (present (seen self.now)) name ++ codes "\n") }
    {
        append_variable(out, &self.history.machine().present(), name);
        out.push(b"\n");
    }

    /// Appends the lines of the names that are the words of a text.
    fn append_names(&self, names: &[u8], out: &mut Text)
        ensures { Adds out.old out.new
            (variables_text (names_of names.now) (present (seen self.now))) }
    {
        let mut rest = names;
        for _at in 0..names.len() {
            let (word, behind) = next_word(rest);
            if word.is_empty() {
                return;
            }
            match name_of(word) {
                Some(name) => self.append_name(name, out),
                None => {}
            }
            rest = behind;
        }
    }

    /// Appends the line of a name. If the name no longer has what was kept of it, the line says
    /// which statement changed it.
    pub(crate) fn append_watched(
        &self,
        held: &NameSnapshot,
        name: Name,
        statement: u32,
        out: &mut Text,
    )
        requires { held.now.name ≡ name }
        ensures { let s = present (seen self.now) in Adds out.old out.new
            (changed_text name s (differs (had held.now) name s) statement) }
    {
        let present = self.history.machine().present();
        append_variable(out, &present, name);
        append_change(out, !held.is_in(&present), statement);
        out.push(b"\n");
    }

    /// Appends the choices that were answered.
    fn append_cursor(&self, alloc: Global, out: &mut Text) -> Result<(), NoMemory>
        ensures { OnOk result (Adds out.old out.new
            (choices_text (choices_in (seen self.now).answers) ++ codes "\n")) }
    {
        let mut cursor = Vec::new(alloc);
        self.history.append_cursor(alloc, &mut cursor)?;
        out.push(&cursor);
        out.push(b"\n");
        Ok(())
    }

    /// Appends the statements around the one that is met next.
    fn append_list(&self, positions: &[LineColumn], out: &mut Text)
        requires { length positions.now ≡ length (seen self.now).program }
        ensures { let s = seen self.now in Adds out.old out.new
            (list_text s.program positions.now (present s).place 5) }
    {
        append_list(out, &self.history.machine().present(), positions, AROUND);
    }

    /// Appends the value of an expression, or its fault, or why the text is no expression.
    pub(crate) fn answer_eval(
        &self,
        alloc: Global,
        text: &[u8],
        out: &mut Text,
    ) -> Result<(), NoMemory>
        ensures { OnOk result ((answer : List ℕ)
            × Evaluates (present (seen self.now)) text.now answer
            × Adds out.old out.new answer) }
    {
        append_evaluated(alloc, out, &self.history.machine().present(), text)
    }

    /// Appends the answer to a command that shows a part of the state, and changes nothing. Returns
    /// whether the command is one.
    pub(crate) fn answer_shown(
        &self,
        alloc: Global,
        positions: &[LineColumn],
        command: Command<'_>,
        out: &mut Text,
    ) -> Result<bool, NoMemory>
        requires { length positions.now ≡ length (seen self.now).program }
        ensures is { IfOk result (λ is. is
            ≡ is_some (shown positions.now (seen self.now) (order_of command.entry))) }
        ensures kept { IfOk result (λ is. is ≡ false → out.new ≡ out.old) }
        ensures text { OnOk result ((text : List ℕ) →
            shown positions.now (seen self.now) (order_of command.entry) ≡ Some text →
            Adds out.old out.new text) }
    {
        match command {
            Command::Print(names) => {
                self.append_names(names, out);
                Ok(true)
            }
            Command::Stack => {
                append_stack(out, &self.history.machine().present());
                Ok(true)
            }
            Command::State => {
                append_state(out, &self.history.machine().present());
                Ok(true)
            }
            Command::List => {
                self.append_list(positions, out);
                Ok(true)
            }
            Command::Output => {
                out.push(self.history.machine().output());
                Ok(true)
            }
            Command::Cursor => {
                self.append_cursor(alloc, out)?;
                Ok(true)
            }
            Command::Help => {
                out.push(help());
                Ok(true)
            }
            Command::Quit => Ok(true),
            _ => Ok(false),
        }
    }
}
