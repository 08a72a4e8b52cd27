//! A table of outcomes.

ghost use Rattle.ick_outcomes.specs.Keys.{IsIndexed};

use crate::index::Index;
use crate::outcome::Outcome;

/// Outcomes, and an index that has the key of each of them.
#[derive(Drop)]
pub(crate) struct Table {
    pub(crate) rows: Vec<Outcome>,
    pub(crate) index: Index,
    pub(crate) ghost indexed: { IsIndexed index.rows rows.items },
}
