//! Descriptions of commands, their arguments, and the values that are given for them.

mod argument;
mod arguments;
mod description;
mod given;
mod values;

pub use argument::{Argument, Form};
pub use arguments::{
    ASKED, BUG, CHOICES, COUNT, ENDS, EXACT, FILE, FROM, INPUT, INSTRUCTIONS, LIMIT, MEMORY, MOST,
    OPERATIONS, PARTS, RULES, SEED, STATEMENT, STATES, TOTAL, TRACE, TRACES, TREE,
};
pub use description::Description;
pub use given::{Values, values_given};
