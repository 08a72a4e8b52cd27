//! Laws of each traced step and of each session. The functions do nothing, and their contracts
//! state the laws.

ghost use Rattle.ick_session.specs.Laws.{EachChangeIsShown, FewLinesHaveRoom};

/// States that the lines of a step show each name that the step changed: its number, its dimensions
/// or elements, whether it is ignored, or how many values are stashed of it.
pub fn each_change_is_shown()
    ensures { EachChangeIsShown }
{}

/// States that a session isn't refused a command for too many steps before it has answered many
/// lines: with the greatest limit, and a count of work that began at 0, over 4,000,000,000 of them.
pub fn few_lines_have_room()
    ensures { FewLinesHaveRoom }
{}
