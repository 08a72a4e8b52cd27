//! Expressions with all their groups in parentheses.

ghost use Rattle.std.specs.Prelude.{◌≡◌};
ghost use Rattle.ick_inspect.specs.Text.{Adds};
ghost use Rattle.ick_stages.specs.Trees.{binary_sign, element_text, subs_text, tree_text};
ghost use Rattle.ick_stages.specs.Trees.{unary_sign};
ghost use Rattle.ick_syntax.specs.Tree.{tree_of, trees_in};

use ick_inspect::{Text, append_name};
use ick_syntax::{BinaryOp, Element, Expr, UnaryOp};

/// Returns the sign of a unary operator.
pub fn unary_sign_of(op: UnaryOp) -> &'static [u8]
    ensures { result.now ≡ unary_sign op }
{
    match op {
        UnaryOp::And => b"&",
        UnaryOp::Or => b"V",
        UnaryOp::Xor => b"?",
    }
}

/// Returns the sign of a binary operator, between spaces.
fn binary_sign_of(op: BinaryOp) -> &'static [u8]
    ensures { result.now ≡ binary_sign op }
{
    match op {
        BinaryOp::Mingle => b" $ ",
        BinaryOp::Select => b" ~ ",
    }
}

/// Appends an expression with all its groups in parentheses: `(?(.1 $ .2) ~ (#0 $ #65535))`.
#[cycle(expression)]
pub fn append_tree(text: &mut Text, e: &Expr)
    ensures { Adds text.old text.new (tree_text (tree_of e.now)) }
{
    match e {
        Expr::Mesh(number) => {
            text.push(b"#");
            text.push_decimal(u64::from(*number));
        }
        Expr::Scalar(name) => append_name(text, *name),
        Expr::Element(element) => append_element(text, element),
        Expr::Unary(op, inner) => {
            text.push(unary_sign_of(*op));
            append_tree(text, inner);
        }
        Expr::Binary(op, left, right) => {
            text.push(b"(");
            append_tree(text, left);
            text.push(binary_sign_of(*op));
            append_tree(text, right);
            text.push(b")");
        }
    }
}

/// Appends an element: `(,1 SUB .1 #2)`.
#[cycle(expression)]
pub fn append_element(text: &mut Text, element: &Element)
    ensures { Adds text.old text.new
        (element_text element.now.array (trees_in element.now.subs.items)) }
{
    text.push(b"(");
    append_name(text, element.array);
    text.push(b" SUB");
    append_subscripts(text, &element.subs);
    text.push(b")");
}

/// Appends subscripts, each behind a space.
#[cycle(expression)]
fn append_subscripts(text: &mut Text, subs: &Vec<Expr>)
    ensures { Adds text.old text.new (subs_text (trees_in subs.now.items)) }
{
    for e in subs {
        text.push(b" ");
        append_tree(text, e);
    }
}
