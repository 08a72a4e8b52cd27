//! Lists the runs of a program: every run exactly once, in the order of their choices, as values or
//! as text. The explorer works over any machine with marks.
//!
//! | Module | Contents |
//! |---|---|
//! | `errors` | the refusals of calls |
//! | `choice_texts` | the printing of lists of choices |
//! | `stretches`, `choices` | a list of choices that keeps what its text is made of |
//! | `reading`, `groups` | the reading of lists of choices |
//! | `cursor` | a position in a listing |
//! | `run`, `path` | a run, and the position of an explorer |
//! | `walk` | the machine's way from one run to the next |
//! | `explorer` | the explorer |
//! | `lines`, `listing`, `writing` | a listing as text |
//! | `laws` | laws of all runs, listings and texts |
#![tactic(auto)]

mod choice_texts;
mod choices;
mod cursor;
mod errors;
mod explorer;
mod groups;
mod laws;
mod lines;
mod listing;
mod path;
mod reading;
mod run;
mod stretches;
mod walk;
mod writing;

pub use choice_texts::append_choices;
pub use cursor::Cursor;
pub use errors::RunsError;
pub use explorer::Explorer;
pub use laws::{one_listing, one_order, one_reading, runs_are_limited};
pub use listing::Listed2;
pub use run::Run;
pub use writing::write_runs;
