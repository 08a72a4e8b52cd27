//! Searches all outcomes of a program.

ghost use Rattle.std.specs.Prelude.{◌≡◌, ◌-◌, ◌<◌, OnOk, IfOk, Err};
ghost use Rattle.std.specs.List.{All};
ghost use Rattle.ick_outcomes.specs.Accounts.{AreCounted, all_ahead, any_outcome};
ghost use Rattle.ick_outcomes.specs.Searches.{Adds, IsFiled, IsLevel, Waits, runs_with};
ghost use Rattle.ick_outcomes.specs.Seen.{nodes_of, rows_of};
ghost use Rattle.ick_outcomes.specs.Summaries.{HasMoreRuns};

use crate::bucket::Bucket;
use crate::choices::Choices;
use crate::errors::OutcomesError;
use crate::fraction::Fraction;
use crate::outcome::Outcome;
use crate::pending::Node;
use crate::search::Search;
use crate::states::States;
use crate::steps::{advance, settle};
use ick_numbers::Natural;
use std::alloc::Global;

/// Makes steps of the nodes that have the most steps left. So nodes are merged before they make
/// further steps. At most `most` nodes wait after each.
fn round<'c, P: States<'c>>(
    search: &mut Search<P::State>,
    program: &P,
    tools: &mut P::Tools,
    due: Bucket<P::State>,
    most: usize,
) -> Result<(), OutcomesError>
    requires tools { P.serves program.now tools.old }
    requires filed { IsFiled (P.seen program.now) (P.suits program.now) search.old }
    requires due { All (Waits (P.seen program.now) (P.suits program.now)) due.nodes.items }
    requires level { IsLevel due }
    ensures adds { OnOk result (Adds (P.seen program.now) (P.suits program.now)
        (λ q. all_ahead q (nodes_of (P.seen program.now) due.nodes.items)) (due.left - 1) search.old
        search.new) }
    ensures more { result ≡ Err OutcomesError.TooManyStates →
        most < runs_with (P.seen program.now) due.nodes.items search.old }
    ensures tools { P.serves program.now tools.new }
{
    'nodes: for node in due.nodes {
        advance(search, program, tools, node)?;
        if search.count > most {
            return Err(OutcomesError::TooManyStates);
        }
    }
    Ok(())
}

/// Returns each outcome of the runs from a state once, with the number of its runs, their weight
/// and the first of them, in no order. At most `most` nodes are kept from one round to the next.
pub(crate) fn count_outcomes<'c, P: States<'c>>(
    alloc: Global,
    program: &P,
    tools: &mut P::Tools,
    state: P::State,
    limit: u32,
    most: usize,
) -> Result<Vec<Outcome>, OutcomesError>
    requires tools { P.serves program.now tools.old }
    requires state { P.suits program.now state }
    ensures counted { IfOk result (λ rows. AreCounted (P.seen program.now state).program
        (P.seen program.now state).state limit (rows_of rows.items)) }
    ensures more { result ≡ Err OutcomesError.TooManyStates →
        HasMoreRuns (P.seen program.now state).program (P.seen program.now state).state limit
        most }
{
    let mut search = Search::new(alloc);
    let node = Node {
        state,
        chance: None,
        left: limit,
        count: Natural::one(alloc)?,
        weight: Fraction::one(alloc)?,
        choices: Choices::new(alloc),
    };
    settle(&mut search, program, node)?;
    'rounds: while let Some(due) = search.take_due() {
        round(&mut search, program, tools, due, most)?;
    }
    let table = search.table;
    Ok(table.rows)
}
