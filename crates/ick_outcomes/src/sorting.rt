//! Answers the summary of a program: its outcomes in the order of their first runs.

ghost use Rattle.std.specs.Prelude.{◌≡◌, OnOk, IfOk, Err};
ghost use Rattle.ick_outcomes.specs.Accounts.{Sorts};
ghost use Rattle.ick_outcomes.specs.Seen.{rows_of};
ghost use Rattle.ick_outcomes.specs.Summaries.{CountsAll, HasMoreRuns, IsSummary};
ghost use Rattle.ick_outcomes.specs.Summaries.{count_of, weight_of};
ghost use Rattle.ick_outcomes.specs.Weights.{whole};

use crate::counting::count_outcomes;
use crate::errors::OutcomesError;
use crate::outcome::Outcome;
use crate::states::States;
use ick_bits::NoMemory;
use std::alloc::Global;

/// Sorts rows by their first runs. After `NoMemory` nothing has moved.
fn sort_rows(rows: &mut Vec<Outcome>) -> Result<(), NoMemory>
    ensures { OnOk result (Sorts (rows_of rows.old.items) (rows_of rows.new.items)) }
{
    rows.sort_by(|one, other| one.first.as_slice().cmp(other.first.as_slice()))?;
    Ok(())
}

/// Returns the summary of all runs of a program from a state, under a limit on steps. An outcome
/// is what a run writes and how it ends. Each outcome comes once, with the number of runs that have
/// it, their weight together, and the first of them in the listing. The outcomes are in the order
/// of their first runs. The counts add up to the length of the listing, and the weights add up to
/// exactly 1. The state must be of the program, and the tools must be for it.
///
/// The weight of a run is the product, over its choices, of n/100 if the statement at chance n was
/// done, and of (100-n)/100 if it was passed over.
///
/// The search keeps at most `most` states from one round of steps to the next. Otherwise it returns
/// `TooManyStates`, and then the program has more than `most` runs under the limit. No contract
/// says that the states differed: states that are equal are merged only if they are found to be.
/// `NoMemory` means that a request for memory was refused.
#[tactic(auto, using(crate::proofs::OrderedRows::summary_of, crate::proofs::Wholes::whole_of))]
pub fn outcomes<'c, P: States<'c>>(
    alloc: Global,
    program: &P,
    tools: &mut P::Tools,
    state: P::State,
    limit: u32,
    most: usize,
) -> Result<Vec<Outcome>, OutcomesError>
    requires tools { P.serves program.now tools.old }
    requires state { P.suits program.now state }
    ensures summary { IfOk result (λ rows.
        IsSummary (P.seen program.now state).program (P.seen program.now state).state limit
        (rows_of rows.items)) }
    ensures counts { IfOk result (λ rows.
        CountsAll (P.seen program.now state).program (P.seen program.now state).state limit
        (count_of (rows_of rows.items))) }
    ensures whole { IfOk result (λ rows. weight_of (rows_of rows.items) ≡ whole) }
    ensures more { result ≡ Err OutcomesError.TooManyStates →
        HasMoreRuns (P.seen program.now state).program (P.seen program.now state).state limit
        most }
{
    let mut rows = count_outcomes(alloc, program, tools, state, limit, most)?;
    sort_rows(&mut rows)?;
    Ok(rows)
}
