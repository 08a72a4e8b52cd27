//! The commands of a session that steps through a run, and what they show. The crate has no
//! devices: a line and a session give a text and the session after it.
//!
//! | Module | What it has |
//! |---|---|
//! | `breakpoints` | the statements at which steps stop |
//! | `commands` | the commands, and the lines that write them |
//! | `help` | the answer to the command `help` |
//! | `given` | the choices that a run is given |
//! | `evaluated` | the answer to an expression |
//! | `outcomes` | what an expression has in a state |
//! | `labels` | which statement has a label |
//! | `counted` | how many choices a session has answered |
//! | `name_snapshot` | what a state has at a name |
//! | `last_change` | the last step of a session that changed a name |
//! | `shown` | where a run is, and how it has ended |
//! | `targets` | the names that a statement may change |
//! | `changes` | what a step has changed |
//! | `passed` | statements that are passed over |
//! | `trace` | the lines of a traced step |
//! | `laws` | each change is shown, and few lines have room |
//! | `session` | a session with its choices, and the answer to each command |
//! | `lines` | the answer to a line |
#![tactic(auto)]

mod breakpoints;
mod changes;
mod commands;
mod counted;
mod evaluated;
mod given;
mod help;
mod labels;
mod last_change;
mod laws;
mod lines;
mod name_snapshot;
mod outcomes;
mod passed;
mod session;
mod shown;
mod targets;
mod trace;

pub use commands::{Command, Verb, read_command};
pub use given::{Given, Words};
pub use ick_inspect::{LineColumn, Text};
pub use ick_step::RunsError;
pub use laws::{each_change_is_shown, few_lines_have_room};
pub use lines::answer_line;
pub use session::Session;
pub use shown::{append_here, append_place};
pub use trace::{Pair, append_answered, trace_step};
