//! Runs that are held against one another.

use crate::failure::Failure;
use ick_code::Code;
use ick_machine::{End, EndKind};
use ick_runs::{Drawn, Ran, Run, run_seeded, run_with};
use std::alloc::Global;

/// Returns the run that came to its end with all of its choices used.
pub fn ended<'c>(choices: Vec<bool>, ran: Ran<'c>) -> Option<Run<'c>> {
    match ran {
        Ran::Ended {
            output,
            end,
            used,
            steps,
        } if used == choices.len() => Some(Run {
            choices,
            output,
            end,
            steps,
        }),
        _ => None,
    }
}

/// Returns the run that a seed draws, if it came to its end.
pub fn drawn_run<'c, 'a>(
    alloc: Global,
    code: &'c Code<'a>,
    input: &'c [u8],
    limit: u32,
    seed: u64,
) -> Result<Option<Run<'c>>, Failure> {
    let Drawn { choices, ran } = run_seeded(alloc, code, input, limit, seed)?;
    Ok(ended(choices, ran))
}

/// Runs a program with these choices, which must be all that it asks.
pub fn ended_with<'c, 'a>(
    alloc: Global,
    code: &'c Code<'a>,
    input: &'c [u8],
    limit: u32,
    choices: &[bool],
) -> Result<Option<Run<'c>>, Failure> {
    let ran = run_with(alloc, code, input, limit, choices)?;
    Ok(ended(Vec::from_slice(alloc, choices)?, ran))
}

/// Whether two ends are the same: of faults the kind, the statement and the subject.
fn is_same_end(left: &End<'_>, right: &End<'_>) -> bool {
    match (left, right) {
        (End::GiveUp, End::GiveUp) | (End::Limit, End::Limit) => true,
        (End::Fault(left), End::Fault(right)) => {
            left.kind == right.kind
                && left.statement == right.statement
                && left.subject == right.subject
        }
        _ => false,
    }
}

/// Whether two runs have the same choices, output, end and steps.
pub fn is_same(found: &Run<'_>, wanted: &Run<'_>) -> bool {
    found.choices == wanted.choices
        && found.output == wanted.output
        && is_same_end(&found.end, &wanted.end)
        && found.steps == wanted.steps
}

/// Returns the kind of an end.
pub fn kind_of(end: &End<'_>) -> EndKind {
    match end {
        End::GiveUp => EndKind::GiveUp,
        End::Fault(fault) => EndKind::Fault(fault.kind, fault.statement),
        End::Limit => EndKind::Limit,
    }
}
