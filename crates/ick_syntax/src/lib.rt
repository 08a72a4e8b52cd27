//! Programs as the reader leaves them: statements, their bodies and expressions, and what holds of
//! them.
//!
//! - `tree`, `body`: expressions and bodies
//! - `faults`: numbers out of range
//! - `statements`, `programs`: a statement, and the statements of a source in their order
//! - `labels`: the labels that bodies use
//! - `kinds`: the kinds of statements
#![tactic(auto)]

mod body;
mod faults;
mod kinds;
mod labels;
mod programs;
mod statements;
mod tree;

pub use body::{Body, Gerund, Item, Place, Target};
pub use faults::{Faults, clamped_number};
pub use kinds::Kind;
pub use labels::LabelUse;
pub use programs::Program;
pub use statements::Statement;
pub use tree::{BinaryOp, Element, Expr, Name, NameKind, UnaryOp};
