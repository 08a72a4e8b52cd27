//! Lists every fault that refuses a text.

ghost use Rattle.std.specs.Prelude.{◌+◌, ◌≤◌, IfOk, List, OnOk, length};
ghost use Rattle.ick_source.specs.AllFaults.{AreAllFaults, AreFaultsUpTo};
ghost use Rattle.ick_source.specs.Seen.{SeesAll};
ghost use Rattle.ick_source.specs.Surveys.{Surveys};
ghost use Rattle.ick_syntax.specs.ProgramFaults.{rank};
ghost use Rattle.ick_syntax.specs.StatementTree.{StatementTree, most_statements};

use crate::seen::Seen;
use crate::survey::Survey;
use ick_bits::FaultKind;
use std::alloc::{AllocError, Global};

/// A kind of fault, and the number of a statement that has it.
#[derive(Clone, Copy, Debug)]
pub struct FaultAt {
    pub kind: FaultKind,
    pub number: u32,
}

/// Lists the kinds of faults that refuse a text, in the order in which the reader seeks them.
const KINDS: [FaultKind; 8] = [
    FaultKind::MeshTooLarge,
    FaultKind::NameRange,
    FaultKind::LabelRange,
    FaultKind::SameLabel,
    FaultKind::NoNextLabel,
    FaultKind::NoAbstainLabel,
    FaultKind::Impolite,
    FaultKind::Fawning,
];

/// Lists all faults of statements, by kinds, and each kind by statements.
pub fn all_faults(alloc: Global, seen: &[Seen<'_>]) -> Result<Vec<FaultAt>, AllocError>
    requires { length seen.now ≤ most_statements }
    ensures { IfOk result (λ faults. (trees : List StatementTree) → SeesAll seen.now trees →
        AreAllFaults trees faults.items) }
{
    let survey = Survey::of(alloc, seen)?;
    let mut faults = Vec::new(alloc);
    for kind in KINDS {
        append_kind(&mut faults, kind, &survey)?;
    }
    Ok(faults)
}

/// Appends the faults of one kind, which follows the kinds of the faults so far.
fn append_kind(
    faults: &mut Vec<FaultAt>,
    kind: FaultKind,
    survey: &Survey<'_, '_>,
) -> Result<(), AllocError>
    requires { length survey.now.seen.now ≤ most_statements }
    ensures { OnOk result ((trees : List StatementTree) → Surveys survey.now trees →
        AreFaultsUpTo trees (rank kind) 0 faults.old.items →
        AreFaultsUpTo trees (rank kind + 1) 0 faults.new.items) }
{
    for one in survey.seen {
        if survey.has(kind, one) {
            faults.push(FaultAt {
                kind,
                number: one.statement.number,
            })?;
        }
    }
    Ok(())
}
