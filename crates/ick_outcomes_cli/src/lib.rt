//! The command line of the program that lists outcomes. `serve_outcomes` does the job that
//! arguments ask for, over devices of the caller.
//!
//! - `words`: the options, and the job that arguments ask for
//! - `outcomes_end`: how a job ends
//! - `found`: the outcomes of code
//! - `exact`: the outcomes of code without a limit
//! - `states`: the states of code, and where their choices lead
//! - `lines`: the lines of a listing
//! - `asked`: what the choices of a listing were asked by
//! - `dispatch`: from a job to its answer, by its source, its input and its listing
//! - `laws`: each job has one answer
//! - `driver`: the whole, from the arguments to the status
#![tactic(auto)]

mod asked;
mod dispatch;
mod driver;
mod exact;
mod found;
mod laws;
mod lines;
mod outcomes_end;
mod states;
mod words;

pub use driver::serve_outcomes;
pub use laws::{one_answer, one_listing, one_weight};
