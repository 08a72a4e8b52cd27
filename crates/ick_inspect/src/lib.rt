//! Reads the state of a machine with marks by the names of variables, and prints it.
//!
//! | Module | What it has |
//! |---|---|
//! | `readers` | readers of the parts of a state |
//! | `text` | a text that grows at its end |
//! | `names` | the line of a variable or an array |
//! | `summary` | the NEXT stack and the whole state |
//! | `positions` | the line and the column of each statement in a source |
//! | `laws` | each statement has one position |
//! | `statements` | statements with their lines and columns |
#![tactic(auto)]

mod laws;
mod names;
mod positions;
mod readers;
mod statements;
mod summary;
mod text;

pub use ick_machine::StateView;
pub use laws::one_start;
pub use names::{append_name, append_variable};
pub use positions::{LineColumn, moved, positions_of};
pub use readers::{
    dimensions, elements, input_left, is_abstained_from, is_ignored, last, lastin, number, output,
    place, return_addresses, stashed_arrays, stashed_numbers,
};
pub use statements::{append_list, append_position, append_statement};
pub use summary::{append_stack, append_state};
pub use text::Text;
