//! Laws of each job. The functions do nothing, and their contracts state the laws.

ghost use Rattle.ick_outcomes_cli.specs.Laws.{OneAnswer, OneListing, OneWeight};

/// States that each job has at most one answer, unless it lists outcomes or states.
pub fn one_answer()
    ensures { OneAnswer }
{}

/// States that the outcomes of a program under a limit have one text: the limit, and whether the
/// text is to be exact or only a total, decide it.
pub fn one_listing()
    ensures { OneListing }
{}

/// States that two listings without a limit give each outcome that both have the same weight, and
/// the runs that never end too.
pub fn one_weight()
    ensures { OneWeight }
{}
