//! Finds the places of the parts of a source text.
//!
//! - `mark`: what a part is, and where it is
//! - `span`: the bytes that characters take
//! - `walker`: a walk over the characters of a text, which marks parts
//! - `expression`, `body`: walks over expressions and bodies
//! - `marks`: the marks of a body
//! - `head`: the parts of a statement's head
//! - `statement`: a statement and its parts
#![tactic(auto)]

mod body;
mod expression;
mod head;
mod mark;
mod marks;
mod span;
mod statement;
mod walker;

pub use head::{Head, Span, head_at};
pub use mark::{Mark, Part};
pub use marks::marks_of;
pub use statement::{Places, place_statement};
