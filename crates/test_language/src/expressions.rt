//! Expressions as text: `(op a b)` for an operator, `[name subscripts]` for an element.

use crate::texts::{Text, append_name, append_number};
use ick_syntax::{BinaryOp, Element, Expr, UnaryOp};

/// Appends an expression with a space before it.
pub fn append_expression(out: &mut Text, expression: &Expr) {
    match expression {
        Expr::Mesh(number) => append_number(out, b" #", u64::from(*number)),
        Expr::Scalar(name) => append_name(out, b" ", name),
        Expr::Element(element) => {
            append_name(out, b" [", &element.array);
            for sub in &element.subs {
                append_expression(out, sub);
            }
            out.push(b']');
        }
        Expr::Unary(op, inner) => {
            append_unary(out, *op);
            append_expression(out, inner);
            out.push(b')');
        }
        Expr::Binary(op, left, right) => {
            append_binary(out, *op);
            append_expression(out, left);
            append_expression(out, right);
            out.push(b')');
        }
    }
}

/// Appends the opening parenthesis and the sign of a unary operator, with a space before them.
fn append_unary(out: &mut Text, op: UnaryOp) {
    match op {
        UnaryOp::And => out.append(b" (&"),
        UnaryOp::Or => out.append(b" (V"),
        UnaryOp::Xor => out.append(b" (?"),
    }
}

/// Appends the opening parenthesis and the sign of a binary operator, with a space before them.
fn append_binary(out: &mut Text, op: BinaryOp) {
    match op {
        BinaryOp::Mingle => out.append(b" ($"),
        BinaryOp::Select => out.append(b" (~"),
    }
}

/// Appends an element with a space before it.
pub fn append_element(out: &mut Text, element: &Element) {
    append_name(out, b" [", &element.array);
    append_expressions(out, element.subs.as_slice());
    out.push(b']');
}

/// Appends expressions with a space before each.
pub fn append_expressions(out: &mut Text, expressions: &[Expr]) {
    for expression in expressions {
        append_expression(out, expression);
    }
}
