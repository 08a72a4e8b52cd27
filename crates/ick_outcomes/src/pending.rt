//! Nodes of the search: states that still have steps to make.

ghost use Rattle.std.specs.Prelude.{◌+◌, ◌<◌, ◌≤◌};
ghost use Rattle.ick_numbers.specs.Naturals.{value_of};

use crate::choices::Choices;
use crate::fraction::Fraction;
use ick_numbers::Natural;

/// A state, how many steps it has left, how many runs lead to it, their weight together, and the
/// choices of the first of them. `chance` is that of the statement that is met, if it asks for a
/// choice. It is `None` until the node waits.
#[derive(Drop)]
pub(crate) struct Node<S: Drop> {
    pub(crate) state: S,
    pub(crate) chance: Option<u8>,
    pub(crate) left: u32,
    pub(crate) count: Natural,
    pub(crate) weight: Fraction,
    pub(crate) choices: Choices,
    pub(crate) ghost fits: { left + weight.places ≤ 4294967295 },
    pub(crate) ghost some: { 0 < value_of count.digits.items },
}
