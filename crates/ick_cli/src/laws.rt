//! What holds of each task: the function does nothing, and its contract is the law.

ghost use Rattle.ick_cli.specs.Laws.{OneAnswer};

/// States that each task has exactly one answer to a file that was not read, and to each source
/// with each input.
pub fn one_answer()
    ensures { OneAnswer }
{}
