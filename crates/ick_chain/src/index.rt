//! Finds rows by keys.

ghost use Rattle.std.specs.Prelude.{◌≡◌, ℕ, OnOk, IfNone};
ghost use Rattle.ick_outcomes.specs.Keys.{key_of, Lacks};

use ick_bits::NoMemory;
use std::alloc::Global;
use std::collections::HashMap;
use std::hash::{FoldHasher, Hasher};

/// Keeps for each key the index of the last row that has it.
#[derive(Drop)]
pub(crate) struct Index {
    pub(crate) rows: HashMap<u64, usize>,
}

impl Index {
    /// Returns an index of no row.
    pub(crate) fn new(alloc: Global) -> Index {
        Index {
            rows: HashMap::new(alloc),
        }
    }

    /// Returns the index that was noted last for a key, or `None` if none was noted.
    pub(crate) fn find(&self, key: u64) -> Option<usize>
        ensures { IfNone result (Lacks self.now.rows key) }
    {
        match self.rows.get(&key) {
            Some(at) => Some(*at),
            None => None,
        }
    }

    /// Notes an index for a key.
    pub(crate) fn note(&mut self, key: u64, at: usize) -> Result<(), NoMemory>
        ensures stays { (k : ℕ) → Lacks self.new.rows k → Lacks self.old.rows k }
        ensures noted { OnOk result (Lacks self.new.rows key → ⊥) }
    {
        self.rows.insert(key, at)?;
        Ok(())
    }
}

/// Returns the key of an outcome, by its output and the text of its end.
pub(crate) fn row_key(output: &[u8], end: &[u8]) -> u64
    ensures { result ≡ key_of output.now end.now }
{
    let mut hasher = FoldHasher::default();
    hasher.write(output);
    hasher.write(end);
    hasher.finish()
}
