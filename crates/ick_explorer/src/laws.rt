//! States laws of all runs, listings and texts. Each function does nothing, and its contract is the
//! law.

ghost use Rattle.std.specs.Prelude.{ℕ, Bool, List, Option};
ghost use Rattle.ick_code.specs.meaning.State.{State};
ghost use Rattle.ick_backtrack.specs.Machine.{Program};
ghost use Rattle.ick_explorer.specs.Order.{IsBelow};
ghost use Rattle.ick_explorer.specs.Laws.{AreLimited, AreOrdered, IsOrder, HasOneListing};
ghost use Rattle.ick_explorer.specs.Laws.{ReadsBack};

/// States that a run makes at most as many steps as its limit, and has at most as many choices.
pub fn runs_are_limited()
    ensures { (p : Program) (s : State) (limit : ℕ) → AreLimited p s limit }
{}

/// States that lists of choices have one order. Of any two whole lists, either both are equal or
/// one is below the other.
pub fn one_order()
    ensures order { IsOrder IsBelow }
    ensures whole { (p : Program) (s : State) (limit : ℕ) → AreOrdered p s limit }
{}

/// States that a program, a state and a limit have exactly one listing from each position.
pub fn one_listing()
    ensures { (p : Program) (s : State) (limit : ℕ) (from : Option (List Bool)) →
        HasOneListing p s limit from }
{}

/// States that a text reads as at most one list of choices. The printed text of a list reads as
/// that list.
pub fn one_reading()
    ensures { ReadsBack }
{}
