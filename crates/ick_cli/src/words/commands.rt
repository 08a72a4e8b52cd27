//! The program `ick` and its commands, as they are described.

use crate::words::help;
use ick_job::{BUG, CHOICES, COUNT, Description, FILE, FROM, LIMIT, SEED};

/// The program, which has no arguments of its own.
pub const ICK: Description<'static> = Description {
    name: "ick",
    about: "Checks, lists and runs programs of INTERCAL-72",
    after_help: help::ICK,
    arguments: &[],
};

/// The commands.
pub const COMMANDS: &[Description<'static>] = &[
    Description {
        name: "check",
        about: "Counts the statements of a program",
        after_help: help::CHECK,
        arguments: &[FILE],
    },
    Description {
        name: "list",
        about: "Lists the statements of a program",
        after_help: help::LIST,
        arguments: &[FILE],
    },
    Description {
        name: "run",
        about: "Runs a program",
        after_help: help::RUN,
        arguments: &[BUG, CHOICES, SEED, LIMIT, FILE],
    },
    Description {
        name: "runs",
        about: "Lists the runs of a program",
        after_help: help::RUNS,
        arguments: &[BUG, FROM, COUNT, LIMIT, FILE],
    },
];
