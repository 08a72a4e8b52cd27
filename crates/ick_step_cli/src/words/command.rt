//! The program `ick-step`, as it is described.

use crate::words::help;
use ick_job::{BUG, CHOICES, Description, FILE, INPUT, LIMIT, SEED, TRACE};

/// The program.
pub const STEP: Description<'static> = Description {
    name: "ick-step",
    about: "Steps through a run of a program of INTERCAL-72, forwards and backwards",
    after_help: help::STEP,
    arguments: &[BUG, INPUT, CHOICES, SEED, LIMIT, TRACE, FILE],
};
