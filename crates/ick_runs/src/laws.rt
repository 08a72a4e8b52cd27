//! States the law of draws. The function does nothing, and its contract is the law.

ghost use Rattle.std.specs.Prelude.{ℕ};
ghost use Rattle.ick_code.specs.meaning.State.{State};
ghost use Rattle.ick_backtrack.specs.Machine.{Program};
ghost use Rattle.ick_runs.specs.Laws.{HasOneDrawing};

/// States that each list of words draws exactly one list of choices for a program, a state and a
/// limit.
pub fn one_drawing()
    ensures { (p : Program) (s : State) (limit : ℕ) (word : ℕ → ℕ) →
        HasOneDrawing p s limit word }
{}
