//! Machines over the engine: what runs a program step by step. Two can be set back to marked
//! states, and one reads its input while it runs.
//!
//! | Module | What it has |
//! |---|---|
//! | `steps` | steps of a run: as many as it makes by itself, or one |
//! | `asking` | what a machine asks before a step, and how its run has ended, with the fault |
//! | `trailed` | a machine with marks that notes each change |
//! | `copied` | a machine with marks that copies its state |
//! | `present` | the present state of a machine with marks, to be read |
//! | `live` | a machine without marks, which takes its input from a feed |
//! | `outlet` | where the output of such a machine goes, and the reader by which it leaves |
#![tactic(auto)]

mod asking;
mod copied;
mod live;
mod outlet;
mod present;
mod steps;
mod trailed;

pub use asking::{EndKind, LiveAsk, asked_at, end_of};
pub use copied::Copied;
pub use ick_backtrack::{Ask, Asks, Backtrack, End};
pub use ick_devices::{Feed, FeedFault};
pub use live::Live;
pub use outlet::{Outlet, OutletFault, RunFault};
pub use present::{Inspect, StateView};
pub use steps::make_steps;
pub use trailed::Trailed;
