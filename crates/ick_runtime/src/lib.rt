//! The memory of a run: what represents its state, and what the instructions of a program do to it.
//!
//! - `memory`: the state of a run, as lists
//! - `fresh`: the memory in which a run begins
//! - `status`: whether a statement is done, is passed over, or asks for a choice
//! - `point`: where a run is, and the registers that it sets
//! - `calculate`: the numbers that calculations give
//! - `array`: arrays: their elements, and whether they are ignored
//! - `subscripts`: the subscripts of an element
//! - `stash`: stashes
//! - `returns`: whether return addresses can be popped
//! - `halt`: why an instruction stops the run
//! - `change`, `notes`: what is noted of a change, and who notes it
//! - `tracer`: who makes steps in place of the loop over instructions
#![tactic(auto)]

mod array;
mod calculate;
mod change;
mod fresh;
mod halt;
mod memory;
mod notes;
mod point;
mod returns;
mod stash;
mod status;
mod subscripts;
mod tracer;

pub use array::{
    fetched, greatest, hide_array, index_of, set_element, set_hidden, store_at, subscripts_at,
};
pub use calculate::{calculated, calculation};
pub use change::{ArrayChange, Entry};
pub use fresh::fresh_memory;
pub use halt::{Halt, fault_result};
pub use memory::{Array, Memory, Parts, Stash};
pub use notes::{Nobody, Notes};
pub use point::{RunPoint, put, set_register};
pub use returns::{NEXT_STACK_ROOM, can_pop, resume_fault};
pub use stash::{
    drop_at, exchange, put_at, restore_array, restore_scalar, save_array, save_scalar,
};
pub use status::Status;
pub use subscripts::Subscripts;
pub use tracer::{NoTraces, Tracer};
