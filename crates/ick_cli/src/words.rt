//! The command line: its commands, and the job that arguments ask for.

mod commands;
mod help;
mod job;

pub use job::{Job, Subcommand, read_job};
