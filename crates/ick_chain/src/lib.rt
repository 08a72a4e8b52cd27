//! Weighs all runs of a program without a limit, if it has finitely many states.
#![tactic(auto)]

mod answer;
mod big;
mod chain;
mod chain_text;
mod counting;
mod counts;
mod cutting;
mod decimals;
mod eliminating;
mod endless;
mod errors;
mod fewest;
mod filing;
mod firsts;
mod grading;
mod index;
mod lasts;
mod laws;
mod line;
mod line_text;
mod listing;
mod mean;
mod means;
mod memory;
mod modular;
mod never;
mod numbered;
mod ordering;
mod outcomes;
mod products;
mod progress;
mod ratio;
mod rounds;
mod row;
mod rows;
mod search;
mod showing;
mod solving;
mod stretched;
mod stuck;
mod total;
mod visits;
mod walking;
mod ways;
mod weight_text;
mod words;

pub use answer::{Answer, weigh};
pub use chain::{Edge, Fork, Node};
pub use chain_text::states_text;
pub use counting::count_rows;
pub use errors::ChainError;
pub use laws::{
    finite_rows_settle, means_are_exact, one_answer, rows_are_near, summaries_last,
    weights_are_tallied,
};
pub use listing::exact_listing;
pub use mean::{Mean, mean_steps};
pub use means::are_means;
pub use outcomes::{Outcomes, list_outcomes};
pub use progress::{Progress, Report, end_reports, progress_line};
pub use ratio::{Ratio, lowest};
pub use row::Row;
pub use search::{Chain, explore};
pub use total::numbers_text;
pub use visits::{are_visits, is_closed};
