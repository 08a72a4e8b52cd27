//! The statement numbers of labels.

ghost use Rattle.std.specs.Prelude.{◌≡◌, ℕ, ◌≤◌, length, map, IfOk};
ghost use Rattle.ick_syntax.specs.StatementTree.{statement_tree_of};
ghost use Rattle.ick_code.specs.meaning.Control.{place_of};
ghost use Rattle.ick_code.specs.Labels.{place_in};
ghost use Rattle.ick_syntax.specs.StatementTree.{most_statements};

use ick_bits::NoMemory;
use ick_syntax::Statement;
use std::alloc::Global;
use std::collections::BTreeMap;

/// The numbers of the statements that have labels.
#[derive(Drop)]
pub struct Labels {
    pub places: BTreeMap<u16, u32>,
    /// One more than the number of statements.
    pub past: u32,
}

impl Labels {
    /// Returns the labels of statements, or `NoMemory` if the map cannot grow.
    pub fn new(alloc: Global, statements: &[Statement]) -> Result<Labels, NoMemory>
        requires { length statements.now ≤ most_statements }
        ensures { IfOk result (λ labels. (label : ℕ) → place_in labels label ≡
            place_of label (map statement_tree_of statements.now)) }
    {
        let mut places = BTreeMap::new(alloc);
        let mut past = 1;
        for statement in statements {
            if let Some(label) = statement.label {
                if !places.contains_key(&label) {
                    places.insert(label, past)?;
                }
            }
            past += 1;
        }
        Ok(Labels { places, past })
    }

    /// Returns the number of the first statement with a label, or one more than the number of
    /// statements if there is none.
    pub fn statement(&self, label: u16) -> u32
        ensures { result ≡ place_in self.now label }
    {
        self.places.get(&label).copied().unwrap_or(self.past)
    }
}
