//! States laws of all summaries. Each function does nothing, and its contract is the law.

ghost use Rattle.std.specs.Prelude.{ℕ};
ghost use Rattle.ick_code.specs.meaning.State.{State};
ghost use Rattle.ick_outcomes.specs.Programs.{Program};
ghost use Rattle.ick_outcomes.specs.Laws.{HasOneSummary, AreProducts, AreHeard};

/// States that a program and a state have exactly one summary under each limit below 2^32.
pub fn one_summary()
    ensures { (p : Program) (s : State) (limit : ℕ) → HasOneSummary p s limit }
{}

/// States that both definitions of a run's weight agree: its share of 100 ^ limit, and the product
/// of the parts over its choices.
pub fn weights_are_products()
    ensures { (p : Program) (s : State) (limit : ℕ) → AreProducts p s limit }
{}

/// States that the run of a program whose output is left out is the run with output, but for the
/// output, and that it weighs the same. If the output isn't left out, the run is that of the
/// explorer.
pub fn runs_are_heard()
    ensures { (p : Program) (s : State) (limit : ℕ) → AreHeard p s limit }
{}
