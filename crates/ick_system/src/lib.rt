//! The arguments, files, streams and exit status of the system, as programs over `ick_job` need
//! them.
//!
//! - `words`: the arguments that the system hands over
//! - `counted`: reads and writes that count their failures
//! - `streams`: sources and sinks over streams
//! - `disk`: the files of the system
//! - `exit`: the exit status in the system's form
#![tactic(auto)]

mod counted;
mod disk;
mod exit;
mod streams;
mod words;

pub use disk::DiskFiles;
pub use exit::exit_code;
pub use streams::{InStream, OutStream};
pub use words::{arguments, words_of};
