//! What holds of all trees and sources. Each function does nothing, and its contract is the law.

ghost use Rattle.ick_stages.specs.Listed.{SeenTexts};
ghost use Rattle.ick_stages.specs.Starts.{StartsOfCut};
ghost use Rattle.ick_stages.specs.Trees.{OneTree};

/// States that different trees have different texts.
pub fn one_tree()
    ensures { OneTree }
{}

/// States that behind the texts of the first statements and white bytes, the cut of a source goes
/// on at exactly one byte, with the next statement. The statements that are seen of a source have
/// the texts of its cut, also if it is refused.
pub fn starts_of_cut()
    ensures cut { StartsOfCut }
    ensures seen { SeenTexts }
{}
