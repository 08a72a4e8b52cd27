//! States laws of all exact answers.

ghost use Rattle.std.specs.Prelude.{ℕ, List};
ghost use Rattle.ick_code.specs.meaning.State.{State};
ghost use Rattle.ick_outcomes.specs.Programs.{Program};
ghost use Rattle.ick_chain.specs.declared.chain.Node.{Node};
ghost use Rattle.ick_chain.specs.Chains.{IsOneAnswer};
ghost use Rattle.ick_chain.specs.Tallied.{AreTallied};
ghost use Rattle.ick_chain.specs.Means.{AreExactMeans};
ghost use Rattle.ick_chain.specs.RowLimits.{AreNear};
ghost use Rattle.ick_chain.specs.GreaterLimits.{AreLasting};
ghost use Rattle.ick_chain.specs.Settled.{AreAllSettled, AreSettled};

/// States that the runs from a state have one exact answer at most.
pub fn one_answer()
    ensures { (p : Program) (s : State) → IsOneAnswer p s }
{}

/// States that mean numbers of steps that fit a chain are exact.
pub fn means_are_exact()
    ensures { (p : Program) (seen : ℕ → State) (nodes : List Node) → AreExactMeans p seen nodes }
{}

/// States that the weights under a limit are those of the tallies, and so of lists of runs.
pub fn weights_are_tallied()
    ensures { (p : Program) (s : State) (limit : ℕ) → AreTallied p s limit }
{}

/// States that the runs with the outcome of a row weigh no more than the row, under each limit on
/// steps, and fall short of it by at most the mean number of steps divided by the limit.
pub fn rows_are_near()
    ensures { (p : Program) (s : State) → AreNear p s }
{}

/// States that a summary under a limit that has no row of runs at the limit is the summary under
/// each greater limit.
pub fn summaries_last()
    ensures { (p : Program) (s : State) → AreLasting p s }
{}

/// States that each line of an exact listing with a number of runs is a row of each summary from
/// some limit on: with the same outcome, number of runs, weight and first run. If each line has a
/// number of runs, and no run never ends, the summary has no other row.
pub fn finite_rows_settle()
    ensures rows { (p : Program) (s : State) → AreSettled p s }
    ensures all { (p : Program) (s : State) → AreAllSettled p s }
{}
