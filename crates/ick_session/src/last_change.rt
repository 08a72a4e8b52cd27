//! The last step of a session that changed a name.

ghost use Rattle.std.specs.Prelude.{◌≡◌, ◌≤◌, ◌+◌, ℕ, Option, Some, None, IfErr, IfOk, OnErr, OnOk};
ghost use Rattle.std.specs.Prelude.{◌⊎◌, Bool, length};
ghost use Rattle.std.specs.Prelude.{true, false};
ghost use Rattle.ick_code.specs.meaning.Move.{advance, ask};
ghost use Rattle.ick_machine.specs.StateView.{present_program, present_state};
ghost use Rattle.ick_step.specs.History.{Answers, IsHistory};
ghost use Rattle.ick_step.specs.Seen.{present, with_answer};
ghost use Rattle.ick_step.specs.Histories.{history};
ghost use Rattle.ick_session.specs.Changes.{alike, had_at};
ghost use Rattle.ick_session.specs.NameSnapshot.{had};
ghost use Rattle.ick_session.specs.Session.{IsStepError};
ghost use Rattle.ick_session.specs.Travel.{IsAt, IsBefore, IsLastChange};

use crate::name_snapshot::NameSnapshot;
use crate::targets::{is_changed_by, ops_of};
use ick_inspect::{StateView, place};
use ick_machine::Trailed;
use ick_step::{History, RunsError};
use ick_syntax::Name;
use std::alloc::Global;

/// Goes back to the state before the last step that changed what a name has. Returns whether there
/// is such a step. If there is none, the state is as before.
pub fn go_before_change(
    alloc: Global,
    run: &mut History<Trailed<'_, '_>>,
    name: Name,
) -> Result<bool, RunsError>
    ensures program { (history run.new).program ≡ (history run.old).program }
    ensures start { (history run.new).start ≡ (history run.old).start }
    ensures few { let s = history run.old in
        (history run.new).work ≤ s.work + (length s.answers + 2000) }
    ensures errors { IfErr result (IsStepError (history run.new)) }
    ensures short { OnErr result (IsBefore (history run.old) (history run.new)) }
    ensures found { let s = history run.old in IfOk result (λ found. found ≡ true →
        (at : ℕ) × IsLastChange s name (length s.answers) (Some at)
        × IsAt s (history run.new) at) }
    ensures none { let s = history run.old in IfOk result (λ found. found ≡ false →
        IsLastChange s name (length s.answers) None
        × IsAt s (history run.new) (length s.answers)) }
{
    let answers = Vec::from_slice(alloc, run.answers())?;
    match last_change(alloc, run, &answers, name)? {
        Some(at) => {
            run.back(answers.len().saturating_sub(at))?;
            Ok(true)
        }
        None => Ok(false),
    }
}

/// Makes all steps of the session again. Returns the number of the last step that changed what a
/// name has. The first step has the number 0.
fn last_change(
    alloc: Global,
    run: &mut History<Trailed<'_, '_>>,
    answers: &[Option<bool>],
    name: Name,
) -> Result<Option<usize>, RunsError>
    requires answers { (history run.old).answers ≡ answers.now }
    requires history { let s = history run.old in IsHistory s.program s.start answers.now }
    ensures program { (history run.new).program ≡ (history run.old).program }
    ensures start { (history run.new).start ≡ (history run.old).start }
    ensures few { let s = history run.old in
        (history run.new).work ≤ s.work + (length s.answers + 1000) }
    ensures errors { IfErr result (IsStepError (history run.new)) }
    ensures short { OnErr result (IsBefore (history run.old) (history run.new)) }
    ensures same { let s = history run.old in
        OnOk result (IsAt s (history run.new) (length s.answers)) }
    ensures last { let s = history run.old in
        IfOk result (IsLastChange s name (length s.answers)) }
{
    run.restart()?;
    let mut held = NameSnapshot::of(alloc, &run.machine().present(), name)?;
    let mut last = None;
    for at in 0..answers.len() {
        let may = may_change(&run.machine().present(), name);
        repeat(run, answers[at])?;
        if !is_kept(may, &held, &run.machine().present()) {
            last = Some(at);
            held = NameSnapshot::of(alloc, &run.machine().present(), name)?;
        }
    }
    Ok(last)
}

/// Returns whether the statement that is met next may change what a name has. It looks at the
/// statement alone, so that an array isn't compared behind each step.
#[tactic(auto, unfolding(ick_machine::specs::StateView::present_program))]
fn may_change(present: &StateView<'_, '_, '_>, name: Name) -> bool
    ensures { let s = present_state present.now in result ≡ false → (chosen : Bool) →
        had_at (advance (present_program present.now) s chosen) name ≡ had_at s name }
{
    let code = present.lowered.code;
    code.law();
    is_changed_by(code, ops_of(code, place(present)), name)
}

/// Returns whether a state has what was kept, which it has unless it may have changed.
fn is_kept(may: bool, held: &NameSnapshot, present: &StateView<'_, '_, '_>) -> bool
    requires { may ≡ false → alike (had held.now)
        (had_at (present_state present.now) held.now.name) ≡ true }
    ensures { result ≡ alike (had held.now)
        (had_at (present_state present.now) held.now.name) }
{
    if !may {
        return true;
    }
    held.is_in(present)
}

/// Makes a step again, by its answer.
fn repeat(run: &mut History<Trailed<'_, '_>>, answer: Option<bool>) -> Result<(), RunsError>
    requires { let s = history run.old in Answers (ask s.program (present s)) answer }
    ensures program { (history run.new).program ≡ (history run.old).program }
    ensures start { (history run.new).start ≡ (history run.old).start }
    ensures few { (history run.new).work ≤ (history run.old).work + 1 }
    ensures errors { IfErr result (IsStepError (history run.new)) }
    ensures short { OnErr result ((history run.new ≡ history run.old)
        ⊎ (history run.new ≡ with_answer answer (history run.old))) }
    ensures made { OnOk result (history run.new ≡ with_answer answer (history run.old)) }
{
    match answer {
        Some(done) => {
            let _chosen = run.choose(done)?;
        }
        None => {
            let _made = run.step(1)?;
        }
    }
    Ok(())
}
