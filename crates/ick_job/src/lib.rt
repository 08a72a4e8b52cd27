//! How a job of a command line reads its files and its input, how it ends, and how its end is
//! reported. The command lines of all programs rest on it.
//!
//! - `words`: descriptions of commands, their arguments, and the values that are given for them
//! - `choices`: the choices that a text has
//! - `notice`: error texts
//! - `job_end`: how a job ends
//! - `output`: the output of an answer
//! - `input`: what a job reads
//! - `stopped`: how work ends with a run that has stopped
//! - `refusing`: how work ends whose source is refused
//! - `status`: the exit status
//! - `reporting`: the error text and the status at the end of a call
//! - `usage`: the answer to arguments that ask for no job
//! - `words_fault`: arguments that can't be read
#![tactic(auto)]

mod choices;
mod input;
mod job_end;
mod notice;
mod output;
mod refusing;
mod reporting;
mod status;
mod stopped;
mod usage;
mod words;
mod words_fault;

pub use choices::{MOST_CHOICES, choices_of};
pub use input::{LONGEST, read_file, read_front, read_input, read_named};
pub use job_end::JobEnd;
pub use notice::{Message, Notice};
pub use output::send;
pub use refusing::refused;
pub use reporting::{finish, report};
pub use status::Status;
pub use stopped::{Stop, stopped_run};
pub use usage::answer_words;
pub use words::{
    ASKED, Argument, BUG, CHOICES, COUNT, Description, ENDS, EXACT, FILE, FROM, Form, INPUT,
    INSTRUCTIONS, LIMIT, MEMORY, MOST, OPERATIONS, PARTS, RULES, SEED, STATEMENT, STATES, TOTAL,
    TRACE, TRACES, TREE, Values, values_given,
};
pub use words_fault::{WordsFault, refuse_words};
