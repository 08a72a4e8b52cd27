//! The program `ick-stages`, as it is described.

use crate::words::help;
use ick_job::{
    BUG, Description, FILE, INSTRUCTIONS, OPERATIONS, PARTS, RULES, STATEMENT, TRACES, TREE,
};

/// The program.
pub const STAGES: Description<'static> = Description {
    name: "ick-stages",
    about: "Shows the stages by which a program of INTERCAL-72 becomes instructions",
    after_help: help::STAGES,
    arguments: &[
        BUG,
        TREE,
        OPERATIONS,
        PARTS,
        RULES,
        INSTRUCTIONS,
        TRACES,
        STATEMENT,
        FILE,
    ],
};
