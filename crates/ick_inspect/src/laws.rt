//! A law of every source. The function does nothing, and its contract states the law.

ghost use Rattle.ick_inspect.specs.Positions.{OneStart};

/// States that the texts of the statements that a source is cut into begin at exactly one list of
/// positions: each behind the one before it, with white bytes alone before it.
pub fn one_start()
    ensures { OneStart }
{}
