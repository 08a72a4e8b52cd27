//! The value of an expression that a person writes, in a state.

ghost use Rattle.std.specs.Prelude.{◌≡◌, ℕ, List, MatchOption, OnOk};
ghost use Rattle.ick_inspect.specs.Text.{Adds};
ghost use Rattle.ick_machine.specs.StateView.{present_state};
ghost use Rattle.ick_session.specs.Evaluated.{AnswersCalculation, Evaluates, IsCalculation};
ghost use Rattle.ick_session.specs.Evaluated.{outcome_text, width_text};
ghost use Rattle.ick_syntax.specs.StatementTree.{statement_trees};
ghost use Rattle.ick_syntax.specs.Tree.{Tree, tree_of};

use crate::outcomes::{Outcome, outcome_of};
use ick_bits::{Fault, NoMemory, Width};
use ick_inspect::{StateView, Text, place};
use ick_source::{Refusal, read_source};
use ick_syntax::{Body, Expr, Statement};
use std::alloc::Global;

/// What `eval` takes.
pub const NO_EXPRESSION: &[u8] = b"eval takes one expression, such as .1 ~ #3\n";

/// Appends the width of a value.
fn append_width(out: &mut Text, width: Width)
    ensures { Adds out.old out.new (width_text width) }
{
    match width {
        Width::Sixteen => out.push(b" (16 bits)\n"),
        Width::ThirtyTwo => out.push(b" (32 bits)\n"),
    }
}

/// Appends a value with its width, or the message that a fault has at the statement that is met
/// next.
fn append_outcome(out: &mut Text, present: &StateView<'_, '_, '_>, outcome: Outcome)
    ensures { Adds out.old out.new (outcome_text (present_state present.now) outcome) }
{
    match outcome {
        Ok(value) => {
            out.push_decimal(u64::from(value.number()));
            append_width(out, value.width());
        }
        Err(kind) => out.push_message(&Fault {
            kind,
            statement: place(present),
            subject: b"",
        }),
    }
}

/// Returns the expression that statements calculate, if they are one calculation.
fn calculated<'s>(statements: &'s [Statement<'_>]) -> Option<&'s Expr>
    ensures { MatchOption result
        ((t : Tree) → IsCalculation (statement_trees statements.now) t → ⊥)
        (λ e. IsCalculation (statement_trees statements.now) (tree_of e.now)) }
{
    if statements.len() != 1 {
        return None;
    }
    match &statements[0].body {
        Body::Calculate(_, expression) => Some(expression),
        _ => None,
    }
}

/// Appends what the expression of a calculation has, or that there is no calculation.
fn append_calculated(
    alloc: Global,
    out: &mut Text,
    present: &StateView<'_, '_, '_>,
    statements: &[Statement<'_>],
) -> Result<(), NoMemory>
    ensures { OnOk result ((text : List ℕ)
        × AnswersCalculation (present_state present.now) (statement_trees statements.now) text
        × Adds out.old out.new text) }
{
    match calculated(statements) {
        Some(expression) => {
            let outcome = outcome_of(alloc, present, expression)?;
            append_outcome(out, present, outcome);
        }
        None => out.push(NO_EXPRESSION),
    }
    Ok(())
}

/// Appends the value of an expression, with its width, or its fault. If the text is no expression,
/// it appends why. `NoMemory` is the only refusal.
pub fn append_evaluated(
    alloc: Global,
    out: &mut Text,
    present: &StateView<'_, '_, '_>,
    text: &[u8],
) -> Result<(), NoMemory>
    ensures { OnOk result ((answer : List ℕ)
        × Evaluates (present_state present.now) text.now answer
        × Adds out.old out.new answer) }
{
    let mut source = Vec::from_slice(alloc, b"DO:1<-")?;
    source.extend_from_slice(text)?;
    match read_source(alloc, &source) {
        Ok(program) => append_calculated(alloc, out, present, program.statements()),
        Err(Refusal::Fault(kind, _)) => {
            append_outcome(out, present, Err(kind));
            Ok(())
        }
        Err(Refusal::TooLong) => {
            out.push(NO_EXPRESSION);
            Ok(())
        }
        Err(Refusal::NoMemory) => Err(NoMemory),
    }
}
