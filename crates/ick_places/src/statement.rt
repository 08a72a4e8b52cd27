//! Where the parts of a statement are.

ghost use Rattle.std.specs.Prelude.{ℕ, ◌≡◌, ◌∷◌, [], ◌≤◌, length, IfOk};
ghost use Rattle.ick_places.specs.Statements.{AreBodyMarks, IsPlaced, IsPlacedFront};
ghost use Rattle.ick_places.specs.Statements.{is_recognised, whole};
ghost use Rattle.ick_source.specs.Boundaries.{IsStart};
ghost use Rattle.ick_source.specs.Statements.{IsStatement};
ghost use Rattle.ick_syntax.specs.BodyTree.{body_tree_of};
ghost use Rattle.ick_syntax.specs.StatementTree.{StatementTree, statement_tree_of};

use crate::head::{Head, Span, head_at};
use crate::mark::{Mark, Part};
use crate::marks::marks_of;
use ick_bits::NoMemory;
use ick_syntax::{Body, Statement};
use std::alloc::Global;

/// Where a statement is, and where its parts are.
#[derive(Drop)]
pub struct Places {
    pub from: usize,
    pub to: usize,
    /// The head. The bytes before the first start have none.
    pub head: Option<Head>,
    /// The parts of the body in the order of its operations. The whole of an unrecognised statement
    /// is one part.
    pub marks: Vec<Mark>,
}

/// Returns whether a body is recognised.
fn recognises(body: &Body) -> bool
    ensures { result ≡ is_recognised (body_tree_of body.now) }
{
    match body {
        Body::Unrecognised => false,
        _ => true,
    }
}

/// Returns the mark of an unrecognised statement.
fn whole_mark(alloc: Global, from: usize, to: usize) -> Result<Vec<Mark>, NoMemory>
    ensures { IfOk result (λ marks. marks.items ≡ whole from to ∷ []) }
{
    let mut marks = Vec::new(alloc);
    let part = Part::Action;
    marks.push(Mark { part, from, to })?;
    Ok(marks)
}

/// Returns the marks of a body that begins at byte `begin`, or that of the whole if it is
/// unrecognised.
fn body_marks_of(
    alloc: Global,
    source: &[u8],
    begin: usize,
    whole: Span,
    body: &Body,
) -> Result<Vec<Mark>, NoMemory>
    ensures { IfOk result (λ marks. AreBodyMarks source.now whole.from whole.to begin
        (is_recognised (body_tree_of body.now)) marks.items) }
{
    if !recognises(body) {
        return whole_mark(alloc, whole.from, whole.to);
    }
    marks_of(alloc, source, begin)
}

/// Finds the parts of the statement whose text begins at byte `at` of the source. Of the statement
/// only its text counts, and whether it is recognised, so numbers in it may be clamped. The places
/// have no meaning if the source has another text there. Refuses with `NoMemory` if memory runs
/// out.
pub fn place_statement(
    alloc: Global,
    source: &[u8],
    at: usize,
    statement: &Statement<'_>,
) -> Result<Places, NoMemory>
    requires { at ≤ length source.now }
    ensures placed { IfOk result (λ p. (to : ℕ) (t : StatementTree) →
        IsStatement source.now at to t → t.text ≡ statement.now.text.now →
        is_recognised t.body ≡ is_recognised (body_tree_of statement.now.body) →
        IsPlaced source.now at t p) }
    ensures front { IfOk result (λ p. (IsStart source.now at → ⊥) →
        IsPlacedFront at (statement_tree_of statement.now) p) }
{
    let to = at + statement.text.len();
    let Some(head) = head_at(source, at) else {
        let marks = whole_mark(alloc, at, to)?;
        return Ok(Places {
            from: at,
            to,
            head: None,
            marks,
        });
    };
    let whole = Span { from: at, to };
    let marks = body_marks_of(alloc, source, head.begin, whole, &statement.body)?;
    Ok(Places {
        from: at,
        to,
        head: Some(head),
        marks,
    })
}
