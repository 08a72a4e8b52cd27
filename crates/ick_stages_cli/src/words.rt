//! The command line: its options, and the job that arguments ask for.

mod command;
mod help;
mod job;

pub use job::{Job, read_job};
