//! The command line of the program that steps through a run. `serve_step` does the job that
//! arguments ask for, over devices of the caller.
//!
//! - `words`: the options, and the job that arguments ask for
//! - `plan`: the run that a job asks for
//! - `trace`: the lines of all steps of a run
//! - `session`: commands line by line, and their answers
//! - `dispatch`: from a job to its answer, by its source and its input
//! - `laws`: each job ends in one way, and each session and each run has one text
//! - `driver`: the whole, from the arguments to the status
#![tactic(auto)]

mod dispatch;
mod driver;
mod laws;
mod plan;
mod session;
mod trace;
mod words;

pub use driver::serve_step;
pub use laws::{one_end, one_session, one_trace};
pub use session::talk;
