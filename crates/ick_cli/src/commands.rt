//! What each command does with a program.

mod check;
mod list;
mod run;
mod runs;

pub use check::answer_check;
pub use list::answer_list;
pub use run::{choices_in, job_end_of};
pub use runs::{answer_runs, list_over};
