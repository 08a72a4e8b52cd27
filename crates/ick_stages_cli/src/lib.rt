//! The command line of the program that shows the stages of the compiler. `serve_stages` does the
//! job that arguments ask for, over devices of the caller.
//!
//! - `words`: the options, and the job that arguments ask for
//! - `dispatch`: from a job to its answer, by its source
//! - `driver`: the whole, from the arguments to the status
#![tactic(auto)]

mod dispatch;
mod driver;
mod words;

pub use driver::serve_stages;
