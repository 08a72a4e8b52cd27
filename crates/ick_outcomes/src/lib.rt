//! Counts what a program can do: each outcome once, with the number of the runs that have it, their
//! weight together, and the first of them. States that are equal after equally many steps are
//! merged, so there may be far fewer steps than the listing of all runs has.
//!
//! | Module | Contents |
//! |---|---|
//! | `states` | the trait of programs whose states can be copied and compared |
//! | `sorting` | the summary: all outcomes in order |
//! | `counting`, `errors` | the search for all outcomes, and its refusals |
//! | `search`, `steps` | what a search keeps, and how a node makes its steps |
//! | `pending`, `node` | nodes, and those to which their steps lead |
//! | `bucket`, `hints` | nodes that wait, and how equal ones are found and merged |
//! | `outcome`, `table`, `filing`, `index` | outcomes, and how runs are added to them |
//! | `choices`, `comparing` | lists of choices, packed and one by one, and their order |
//! | `following` | one run, and the statements that asked for its choices |
//! | `fraction`, `text`, `cut` | weights of any length; the texts of counts and weights |
//! | `lines`, `quoting` | the text of a summary |
//! | `laws` | laws of all summaries |
#![tactic(auto)]

mod bucket;
mod choices;
mod comparing;
mod counting;
mod cut;
mod errors;
mod filing;
mod following;
mod fraction;
mod hints;
mod index;
mod laws;
mod lines;
mod node;
mod outcome;
mod pending;
mod quoting;
mod search;
mod sorting;
mod states;
mod steps;
mod table;
mod text;

pub use cut::{cut_text, weight_text};
pub use errors::OutcomesError;
pub use following::{AskedBy, FollowedRun, asked_text, follow, run_line};
pub use fraction::Fraction;
pub use hints::Hints;
pub use laws::{one_summary, runs_are_heard, weights_are_products};
pub use lines::{summary_text, total_text};
pub use outcome::{Outcome, end_word};
pub use sorting::outcomes;
pub use states::States;
pub use text::{fraction_text, number_text};
