//! Describes a run of a program.

use ick_backtrack::End;

/// Holds the choices that name a run, its output, its end and its number of steps.
#[derive(Drop)]
pub struct Run<'c> {
    pub choices: Vec<bool>,
    pub output: Vec<u8>,
    pub end: End<'c>,
    pub steps: u32,
}
