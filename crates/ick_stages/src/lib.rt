//! The stages by which a compiler makes instructions of a statement, as lines of text.
//!
//! | Module | What it has |
//! |---|---|
//! | `names` | the names of slots |
//! | `tree`, `body` | expressions and bodies in one writing |
//! | `operation` | operations, and how deep the stack is behind each |
//! | `registers`, `table`, `instruction` | registers, tables of constants, and instructions |
//! | `value` | what is known of the value of an operand |
//! | `rule` | the names of the rules of lowering, by what is seen of a step |
//! | `steps` | the steps by which a statement is lowered |
//! | `left` | the instructions that are left of a statement, and those that are dropped |
//! | `statement` | statements as `ick list` shows them, with their lines and columns |
//! | `trace` | the traces that begin with a statement |
//! | `point` | bytes of a source, with their lines and columns |
//! | `placed`, `parts` | where a statement and its parts are, and where reading stops |
//! | `stages` | the stages of a statement |
//! | `writing` | the stages of a whole program, written statement by statement |
//! | `fault`, `listed` | the faults of a source, and the lines of its statements, refused or not |
//! | `laws` | different trees have different texts; statements begin where the cut goes on |
#![tactic(auto)]

mod body;
mod fault;
mod instruction;
mod laws;
mod left;
mod listed;
mod names;
mod operation;
mod parts;
mod placed;
mod point;
mod registers;
mod rule;
mod stages;
mod statement;
mod steps;
mod table;
mod trace;
mod tree;
mod value;
mod writing;

pub use body::append_body;
pub use instruction::append_instruction;
pub use laws::{one_tree, starts_of_cut};
pub use listed::write_listed;
pub use operation::{append_operation, append_operations};
pub use registers::{Registers, append_register};
pub use rule::{Step, append_rules};
pub use stages::Asked;
pub use steps::{Makers, append_steps};
pub use trace::{Place, append_traces, traces_of};
pub use tree::append_tree;
pub use value::append_value;
pub use writing::write_stages;
