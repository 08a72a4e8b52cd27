//! The command line: its options, and the job that arguments ask for.

mod command;
mod help;
mod job;

pub use job::{Job, Question, USUAL_LIMIT, read_job};
