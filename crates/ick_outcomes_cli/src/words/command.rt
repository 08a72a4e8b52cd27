//! The program `ick-outcomes`, as it is described.

use crate::words::help;
use ick_job::{ASKED, BUG, Description, ENDS, EXACT, FILE, LIMIT, MEMORY, MOST, STATES, TOTAL};

/// The program.
pub const OUTCOMES: Description<'static> = Description {
    name: "ick-outcomes",
    about: "Lists the outcomes of a program of INTERCAL-72, with counts and weights",
    after_help: help::OUTCOMES,
    arguments: &[
        BUG, LIMIT, MOST, MEMORY, EXACT, TOTAL, ENDS, STATES, ASKED, FILE,
    ],
};
