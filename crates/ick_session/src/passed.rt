//! Statements that are passed over.

ghost use Rattle.std.specs.Prelude.{◌≡◌, ◌≤◌, Some, length, option_map};
ghost use Rattle.ick_code.specs.meaning.Move.{is_done};
ghost use Rattle.ick_code.specs.meaning.State.{statement_at};
ghost use Rattle.ick_inspect.specs.Text.{Adds};
ghost use Rattle.ick_machine.specs.StateView.{present_program, present_state};
ghost use Rattle.ick_session.specs.Changes.{passed_text};

use ick_inspect::{StateView, Text, place};

/// Returns whether a statement is done. If its chance asks a choice, `chosen` is the answer.
#[tactic(auto, unfolding(ick_machine::specs::StateView::present_program, ick_machine::specs::StateView::present_state), using(ick_runtime::proofs::Statuses::done_by))]
fn is_done(present: &StateView<'_, '_, '_>, statement: u32, chosen: bool) -> bool
    requires first { 1 ≤ statement }
    requires last { statement ≤ length (present_program present.now) }
    ensures { option_map (λ tree. is_done tree ((present_state present.now).abstained statement)
        chosen) (statement_at (present_program present.now) statement) ≡ Some result }
{
    present.law();
    present.memory.statuses[statement as usize].is_done_by(chosen)
}

/// Appends that the statement that is met next is passed over, unless it is done. If its chance
/// asks a choice, `chosen` is the answer.
#[tactic(auto, unfolding(ick_machine::specs::StateView::present_program))]
pub fn append_passed(out: &mut Text, present: &StateView<'_, '_, '_>, chosen: bool)
    ensures { let s = present_state present.now in Adds out.old out.new
        (passed_text (statement_at (present_program present.now) s.place) s chosen) }
{
    let statement = place(present);
    if statement < 1 {
        return;
    }
    if present.lowered.code.count() < statement {
        return;
    }
    if !is_done(present, statement, chosen) {
        out.push(b"  passed over\n");
    }
}
