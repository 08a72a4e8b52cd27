//! Compiles programs: each statement becomes a flat list of operations that does what the statement
//! does.
//!
//! - `op`: operations over an operand stack
//! - `names`, `table`: slots for the names of variables
//! - `labels`: the statement numbers of labels
//! - `emit`: turns trees into operations
//! - `counts`: counts the operands that operations pop, push and keep
//! - `code`: a compiled program
//! - `compiler`: turns programs into code
//! - `laws`: laws of every step
#![tactic(auto)]

mod code;
mod compiler;
mod counts;
mod emit;
mod labels;
mod laws;
mod names;
mod op;
mod table;

pub use code::Code;
pub use compiler::compile;
pub use ick_syntax::Kind;
pub use laws::{law_of_asking, law_of_output_and_input, law_of_places};
pub use op::{Op, SlotName};
