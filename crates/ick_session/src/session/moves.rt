//! The answers to commands that move a session.

use crate::changes::append_change;
use crate::commands::Command;
use crate::counted::count_choices;
use crate::last_change::go_before_change;
use crate::name_snapshot::NameSnapshot;
use crate::session::Session;
use crate::session::travel::Target;
use crate::shown::append_going;
use ick_inspect::{LineColumn, Text, append_variable};
use ick_step::RunsError;
use ick_syntax::Name;
use std::alloc::Global;

impl<'c, 'a> Session<'c, 'a> {
    ghost use Rattle.std.specs.Prelude.{◌≡◌, ◌≤◌, ◌+◌, ◌-◌, ◌++◌, ℕ, true, false, Some, None};
    ghost use Rattle.std.specs.Prelude.{IfErr, IfOk, OnErr, OnOk, is_some, length, min, List};
    ghost use Rattle.ick_inspect.specs.Text.{Adds};
    ghost use Rattle.ick_step.specs.Seen.{present};
    ghost use Rattle.ick_session.specs.Answers.{AnswersCommand, Chooses, Explains, Goes, GoesOut};
    ghost use Rattle.ick_session.specs.Answers.{is_out, StopsShort, shown, watched_text};
    ghost use Rattle.ick_session.specs.Breakpoints.{is_breakpoint};
    ghost use Rattle.ick_session.specs.Commands.{any_number, moves, order_of};
    ghost use Rattle.ick_session.specs.Changes.{had_at};
    ghost use Rattle.ick_session.specs.Given.{given_by};
    ghost use Rattle.ick_session.specs.Session.{IsStepError, most_work, seen, settings};
    ghost use Rattle.ick_session.specs.Travel.{CameSoFar, IsAt, IsBefore, IsLastChange, StopsFirst};
    ghost use Rattle.ick_session.specs.Travel.{comes, differs, goes_on_text, has_come, steps_left};
    ghost use Rattle.ick_session.specs.Travel.{way_text, where_text};

    /// Does a command that moves the session, and appends the answer.
    pub(crate) fn answer_move(
        &mut self,
        alloc: Global,
        positions: &[LineColumn],
        command: Command<'_>,
        out: &mut Text,
    ) -> Result<(), RunsError>
        requires positions { length positions.now ≡ length (seen self.old).program }
        requires moves { moves (order_of command) ≡ true }
        ensures fixed { settings self.new ≡ settings self.old }
        ensures few { let s = seen self.old in
            (seen self.new).work ≤ s.work + most_work self.old.limit s }
        ensures errors { IfErr result (IsStepError (seen self.new)) }
        ensures short { OnErr result (StopsShort (settings self.old) (seen self.old)
            (order_of command.entry) (seen self.new)) }
        ensures answers { OnOk result ((text : List ℕ)
            × AnswersCommand (settings self.old) positions.now (seen self.old)
            (order_of command.entry) (seen self.new) text
            × Adds out.old out.new text) }
    {
        match command {
            Command::Step(steps) => self.forward(positions, &Target::Nowhere, steps, out),
            Command::Next => {
                let depth = self.depth();
                self.forward(positions, &Target::Depth(depth), u32::MAX, out)
            }
            Command::Until(statement) => {
                let target = Target::Statement(statement);
                self.forward(positions, &target, u32::MAX, out)
            }
            Command::Run(most) => self.answer_run(positions, most, out),
            Command::Out => self.answer_out(positions, out),
            Command::Choose(done) => self.answer_choose(positions, done, out),
            Command::Watch(name) => self.answer_watch(alloc, positions, name, out),
            Command::Why(name) => self.answer_why(alloc, positions, name, out),
            Command::Back(steps) => self.answer_back(positions, steps, out),
            _ => Ok(()),
        }
    }

    /// Travels, and appends what the run has printed on the way, and where the run is then.
    fn forward(
        &mut self,
        positions: &[LineColumn],
        target: &Target<'_>,
        most: u32,
        out: &mut Text,
    ) -> Result<(), RunsError>
        requires { length positions.now ≡ length (seen self.old).program }
        ensures fixed { settings self.new ≡ settings self.old }
        ensures few { let s = seen self.old in
            (seen self.new).work ≤ s.work + steps_left self.old.limit s }
        ensures errors { IfErr result (IsStepError (seen self.new)) }
        ensures short { OnErr result (CameSoFar (settings self.old) (has_come target.now)
            (seen self.old) (seen self.new)) }
        ensures stops { let s = seen self.old in OnOk result (StopsFirst (given_by self.old.given)
            (comes (settings self.old) (has_come target.now))
            (min most (steps_left self.old.limit s)) s (seen self.new)) }
        ensures text { OnOk result (Adds out.old out.new (way_text (settings self.old)
            positions.now (seen self.old) (seen self.new))) }
    {
        let printed = self.printed();
        let _last = self.travel(target, most)?;
        self.append_printed(printed, out);
        self.append_here(positions, out);
        Ok(())
    }

    /// Travels at most this number of steps, and says whether the run goes on.
    fn answer_run(
        &mut self,
        positions: &[LineColumn],
        most: u32,
        out: &mut Text,
    ) -> Result<(), RunsError>
        requires { length positions.now ≡ length (seen self.old).program }
        ensures fixed { settings self.new ≡ settings self.old }
        ensures few { let s = seen self.old in
            (seen self.new).work ≤ s.work + steps_left self.old.limit s }
        ensures errors { IfErr result (IsStepError (seen self.new)) }
        ensures short { OnErr result (CameSoFar (settings self.old) (λ v. false) (seen self.old)
            (seen self.new)) }
        ensures answers { let s = seen self.old in OnOk result ((way : List ℕ)
            × Goes (settings self.old) positions.now (λ v. false) most s (seen self.new) way
            × Adds out.old out.new (way ++ goes_on_text (settings self.old) most s
            (seen self.new))) }
    {
        let before = self.steps();
        self.forward(positions, &Target::Nowhere, most, out)?;
        let goes = self.goes_on(before, most)?;
        append_going(goes, out);
        Ok(())
    }

    /// Travels until the newest return address was removed, if there is one.
    fn answer_out(&mut self, positions: &[LineColumn], out: &mut Text) -> Result<(), RunsError>
        requires { length positions.now ≡ length (seen self.old).program }
        ensures fixed { settings self.new ≡ settings self.old }
        ensures few { let s = seen self.old in
            (seen self.new).work ≤ s.work + steps_left self.old.limit s }
        ensures errors { IfErr result (IsStepError (seen self.new)) }
        ensures short { let s = seen self.old in OnErr result (CameSoFar (settings self.old)
            (is_out (present s)) s (seen self.new)) }
        ensures answers { OnOk result ((text : List ℕ)
            × GoesOut (settings self.old) positions.now (seen self.old) (seen self.new) text
            × Adds out.old out.new text) }
    {
        let depth = self.depth();
        if depth == 0 {
            out.push(b"the NEXT stack is empty\n");
            return Ok(());
        }
        self.forward(positions, &Target::Depth(depth - 1), u32::MAX, out)
    }

    /// Makes the step of a choice, and appends what it printed and where the run is then. If no
    /// choice is asked, it appends that.
    fn answer_choose(
        &mut self,
        positions: &[LineColumn],
        done: bool,
        out: &mut Text,
    ) -> Result<(), RunsError>
        requires { length positions.now ≡ length (seen self.old).program }
        ensures fixed { settings self.new ≡ settings self.old }
        ensures few { (seen self.new).work ≤ (seen self.old).work + 1 }
        ensures errors { IfErr result (IsStepError (seen self.new)) }
        ensures short { OnErr result (seen self.new ≡ seen self.old) }
        ensures answers { OnOk result ((text : List ℕ)
            × Chooses (settings self.old) positions.now done (seen self.old) (seen self.new) text
            × Adds out.old out.new text) }
    {
        let printed = self.printed();
        if self.left() == 0 {
            out.push(b"limit reached\n");
            return Ok(());
        }
        if !self.choose(done)? {
            out.push(b"no choice is asked\n");
            return Ok(());
        }
        self.append_printed(printed, out);
        self.append_here(positions, out);
        Ok(())
    }

    /// Travels to the next change of a name, and appends where the run is, and the name's line with
    /// the statement that changed it.
    fn answer_watch(
        &mut self,
        alloc: Global,
        positions: &[LineColumn],
        name: Name,
        out: &mut Text,
    ) -> Result<(), RunsError>
        requires { length positions.now ≡ length (seen self.old).program }
        ensures fixed { settings self.new ≡ settings self.old }
        ensures few { let s = seen self.old in
            (seen self.new).work ≤ s.work + steps_left self.old.limit s }
        ensures errors { IfErr result (IsStepError (seen self.new)) }
        ensures short { let s = seen self.old in OnErr result (CameSoFar (settings self.old)
            (differs (had_at (present s) name) name) s (seen self.new)) }
        ensures answers { let s = seen self.old in OnOk result ((way : List ℕ)
            × Goes (settings self.old) positions.now (differs (had_at (present s) name) name)
            any_number s (seen self.new) way
            × Adds out.old out.new (way ++ watched_text name s (seen self.new))) }
    {
        let held = NameSnapshot::of(alloc, &self.history.machine().present(), name)?;
        let printed = self.printed();
        let last = self.travel(&Target::Change(&held), u32::MAX)?;
        self.append_printed(printed, out);
        self.append_here(positions, out);
        self.append_watched(&held, name, last, out);
        Ok(())
    }

    /// Appends a name's line, and goes back to the state before the last step that changed the
    /// name. Then it appends that step's statement, and where the run is.
    fn answer_why(
        &mut self,
        alloc: Global,
        positions: &[LineColumn],
        name: Name,
        out: &mut Text,
    ) -> Result<(), RunsError>
        requires { length positions.now ≡ length (seen self.old).program }
        ensures fixed { settings self.new ≡ settings self.old }
        ensures few { let s = seen self.old in
            (seen self.new).work ≤ s.work + (length s.answers + 2000) }
        ensures errors { IfErr result (IsStepError (seen self.new)) }
        ensures short { OnErr result (IsBefore (seen self.old) (seen self.new)) }
        ensures answers { OnOk result ((text : List ℕ)
            × Explains (settings self.old) positions.now name (seen self.old) (seen self.new) text
            × Adds out.old out.new text) }
    {
        append_variable(out, &self.history.machine().present(), name);
        if self.before_change(alloc, name)? {
            append_change(out, true, self.place());
            out.push(b"\n");
            self.append_here(positions, out);
        } else {
            out.push(b"\n");
            out.push(b"not changed by any step\n");
        }
        Ok(())
    }

    /// Goes back to the state before the last step that changed what a name has. Returns whether
    /// there is such a step. If there is none, the state is as before.
    fn before_change(&mut self, alloc: Global, name: Name) -> Result<bool, RunsError>
        ensures fixed { settings self.new ≡ settings self.old }
        ensures few { let s = seen self.old in
            (seen self.new).work ≤ s.work + (length s.answers + 2000) }
        ensures errors { IfErr result (IsStepError (seen self.new)) }
        ensures short { OnErr result (IsBefore (seen self.old) (seen self.new)) }
        ensures found { let s = seen self.old in IfOk result (λ found. found ≡ true →
            (at : ℕ) × IsLastChange s name (length s.answers) (Some at)
            × IsAt s (seen self.new) at) }
        ensures none { let s = seen self.old in IfOk result (λ found. found ≡ false →
            IsLastChange s name (length s.answers) None
            × IsAt s (seen self.new) (length s.answers)) }
    {
        let gone = go_before_change(alloc, &mut self.history, name);
        self.chosen = count_choices(self.history.answers());
        gone
    }

    /// Takes steps back, and appends where the run is.
    fn answer_back(
        &mut self,
        positions: &[LineColumn],
        steps: u32,
        out: &mut Text,
    ) -> Result<(), RunsError>
        requires { length positions.now ≡ length (seen self.old).program }
        ensures fixed { settings self.new ≡ settings self.old }
        ensures few { (seen self.new).work ≤ (seen self.old).work + 1000 }
        ensures errors { IfErr result (IsStepError (seen self.new)) }
        ensures short { OnErr result (IsBefore (seen self.old) (seen self.new)) }
        ensures back { let s = seen self.old in
            OnOk result (IsAt s (seen self.new) (length s.answers - steps)) }
        ensures text { OnOk result (Adds out.old out.new
            (where_text (settings self.old) positions.now (seen self.new))) }
    {
        self.back(steps as usize)?;
        self.append_here(positions, out);
        Ok(())
    }
}
