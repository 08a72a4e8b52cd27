//! Defines machines with marks: what runs a program step by step and can be set back to marked
//! states. The explorer is built over these traits alone, so its theorem holds for every machine.
//!
//! | Module | Contents |
//! |---|---|
//! | `asking` | what a machine asks, and how a run ends |
//! | `backtrack` | the traits of machines with marks |
#![tactic(auto)]

mod asking;
mod backtrack;

pub use asking::{Ask, End};
pub use backtrack::{Asks, Backtrack};
