//! Statements as `ick list` shows them, with their lines and columns.

ghost use Rattle.std.specs.Prelude.{◌≡◌, ◌++◌, codes, decimal};
ghost use Rattle.ick_inspect.specs.Text.{Adds};
ghost use Rattle.ick_source.specs.Listing.{label_text};
ghost use Rattle.ick_stages.specs.Statements.{end_text, front_text, head_text, placed_line};
ghost use Rattle.ick_syntax.specs.StatementTree.{statement_tree_of};

use ick_inspect::{LineColumn, Text, append_position};
use ick_syntax::Statement;

/// Appends the label of a statement in parentheses, or `-`.
fn append_label(text: &mut Text, label: Option<u16>)
    ensures { Adds text.old text.new (label_text label) }
{
    match label {
        None => text.push(b"-"),
        Some(label) => append_some(text, label),
    }
}

/// Appends a label in parentheses.
fn append_some(text: &mut Text, label: u16)
    ensures { Adds text.old text.new (codes "(" ++ decimal label ++ codes ")") }
{
    text.push(b"(");
    text.push_decimal(u64::from(label));
    text.push(b")");
}

/// Returns `PLEASE` or `DO`, after a space, and `NOT` or `-`, between spaces.
fn head_words(polite: bool, abstained: bool) -> &'static [u8]
    ensures { result.now ≡ head_text polite abstained }
{
    match (polite, abstained) {
        (true, true) => b" PLEASE NOT ",
        (true, false) => b" PLEASE - ",
        (false, true) => b" DO NOT ",
        (false, false) => b" DO - ",
    }
}

/// Appends the number of a statement, its position and its label.
#[tactic(auto, unfolding(crate::specs::Statements::front_text))]
fn append_front(text: &mut Text, number: u32, position: LineColumn, label: Option<u16>)
    ensures { Adds text.old text.new (front_text number position label) }
{
    text.push_decimal(u64::from(number));
    text.push(b" ");
    append_position(text, position);
    text.push(b" ");
    append_label(text, label);
}

/// Appends the chance of a statement, its kind and its text.
#[tactic(auto, unfolding(crate::specs::Statements::end_text))]
fn append_end(text: &mut Text, chance: u8, kind: &[u8], words: &[u8])
    ensures { Adds text.old text.new (end_text chance kind.now words.now) }
{
    text.push_decimal(u64::from(chance));
    text.push(b" ");
    text.push(kind);
    text.push(b" ");
    text.push_quoted(words);
    text.push(b"\n");
}

/// Appends the line of statement `n`: that of `ick list`, with the statement's position behind its
/// number.
#[tactic(auto, unfolding(crate::specs::Statements::placed_line))]
pub fn append_line(text: &mut Text, n: u32, statement: &Statement<'_>, position: LineColumn)
    ensures { Adds text.old text.new (placed_line n position (statement_tree_of statement.now)) }
{
    append_front(text, n, position, statement.label);
    text.push(head_words(statement.polite, statement.abstained));
    let kind = statement.body.kind();
    append_end(text, statement.chance, kind.word(), statement.text);
}
