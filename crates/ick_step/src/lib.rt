//! Steps through a run, forwards and backwards, over any machine with marks.
//!
//! | Module | Contents |
//! |---|---|
//! | `marks` | a mark before each thousandth step |
//! | `forward` | steps at which nothing is asked |
//! | `backward` | steps that are taken back, from the nearest mark on |
//! | `session` | a run that is stepped through |
//! | `arrival` | steps until the run comes to a statement, or back from a NEXT |
//! | `choosing` | a step at which a choice is asked, and the list of choices |
#![tactic(auto)]

mod arrival;
mod backward;
mod choosing;
mod forward;
mod history;
mod marks;

pub use history::History;
pub use ick_explorer::RunsError;
pub use ick_machine::Inspect;
