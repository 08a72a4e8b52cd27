//! The command line of `ick`. `serve` does the job that arguments ask for, over devices of the
//! caller. The crate passes on what the command lines of all programs share, which is in `ick_job`.
//!
//! - `words`: the commands, the job that arguments ask for, and the texts of help
//! - `plan`: what is done with a program, after texts of choices are read
//! - `commands`: what each command does with a program
//! - `dispatch`: from a job to its command, by its source and its program
//! - `driver`: the whole, from the arguments to the status
//! - `laws`: what holds of each task
#![tactic(auto)]

mod commands;
mod dispatch;
mod driver;
mod laws;
mod plan;
mod words;

pub use driver::serve;
pub use ick_devices::Files;
pub use ick_job::Status;
pub use laws::one_answer;
