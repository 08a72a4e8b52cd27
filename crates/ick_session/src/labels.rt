//! Which statement has a label.

ghost use Rattle.std.specs.Prelude.{◌≡◌};
ghost use Rattle.ick_code.specs.meaning.Control.{is_label, place_of};
ghost use Rattle.ick_syntax.specs.StatementTree.{statement_trees};

use ick_syntax::Statement;

/// Returns the number of the first statement with a label, or one more than there are statements.
pub fn place_of(statements: &[Statement<'_>], label: u32) -> usize
    ensures { result ≡ place_of label (statement_trees statements.now) }
{
    for at in 0..statements.len() {
        if has_label(&statements[at], label) {
            return at + 1;
        }
    }
    statements.len() + 1
}

/// Returns whether a statement has a label.
fn has_label(statement: &Statement<'_>, label: u32) -> bool
    ensures { result ≡ is_label label statement.now.label }
{
    match statement.label {
        Some(other) => u32::from(other) == label,
        None => false,
    }
}
