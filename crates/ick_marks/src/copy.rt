//! Copies of what a state has.

ghost use Rattle.std.specs.Prelude.{◌≡◌, map, IfOk};
ghost use Rattle.ick_marks.specs.Saved.{AreSame};
ghost use Rattle.ick_runtime.specs.View.{parts_of};

use ick_bits::NoMemory;
use ick_runtime::{Array, Parts, Stash};
use std::alloc::Global;

/// A value that is copied, as far as a state has it.
pub trait Part: Drop {
    /// The type of what a state has of it.
    ghost Value: { Type 0 };

    /// What a state has of it.
    ghost value: { Self → Self.Value };

    /// Returns a copy.
    fn copied(&self, alloc: Global) -> Result<Self, NoMemory>
        ensures { IfOk result (λ copy. value copy ≡ value self.now) };
}

impl Part for Array {
    ghost use Rattle.std.specs.Prelude.{Bool};
    ghost use Rattle.ick_code.specs.meaning.State.{Array as ArrayValue};
    ghost use Rattle.ick_marks.specs.Saved.{flagged};

    ghost Value = { ArrayValue × Bool };

    ghost value = { flagged };

    fn copied(&self, alloc: Global) -> Result<Array, NoMemory> {
        Ok(Array {
            dimensions: Vec::from_slice(alloc, &self.dimensions)?,
            elements: Vec::from_slice(alloc, &self.elements)?,
            hidden: self.hidden,
        })
    }
}

/// Copies have no spare room.
impl Part for Stash<u32> {
    ghost use Rattle.std.specs.Prelude.{ℕ, List};
    ghost use Rattle.ick_marks.specs.Saved.{numbers_on};

    ghost Value = { List ℕ };

    ghost value = { numbers_on };

    fn copied(&self, alloc: Global) -> Result<Stash<u32>, NoMemory> {
        Ok(Stash {
            items: Vec::from_slice(alloc, &self.items[..self.depth])?,
            depth: self.depth,
        })
    }
}

/// Copies have no spare room.
impl Part for Stash<Array> {
    ghost use Rattle.std.specs.Prelude.{List};
    ghost use Rattle.ick_code.specs.meaning.State.{Array as ArrayValue};
    ghost use Rattle.ick_marks.specs.Saved.{arrays_on};

    ghost Value = { List ArrayValue };

    ghost value = { arrays_on };

    #[tactic(auto, using(crate::proofs::Saving::value_by_value))]
    fn copied(&self, alloc: Global) -> Result<Stash<Array>, NoMemory> {
        Ok(Stash {
            items: copy_all(alloc, &self.items[..self.depth])?,
            depth: self.depth,
        })
    }
}

/// Copies values one by one.
#[tactic(auto, using(crate::proofs::Saving::value_by_value))]
fn copy_all<T: Part>(alloc: Global, items: &[T]) -> Result<Vec<T>, NoMemory>
    ensures { IfOk result (λ copies. map T.value copies.items ≡ map T.value items.now) }
{
    let mut copies = Vec::new(alloc);
    for item in items {
        copies.push(item.copied(alloc)?)?;
    }
    Ok(copies)
}

/// Copies the parts of a state that few instructions change. Stashes of the copy have no spare
/// room.
pub fn copy_rest(alloc: Global, rest: &Parts) -> Result<Parts, NoMemory>
    ensures { IfOk result (λ copy. AreSame (parts_of rest.now) (parts_of copy)) }
{
    Ok(Parts {
        arrays: copy_all(alloc, &rest.arrays)?,
        scalar_stashes: copy_all(alloc, &rest.scalar_stashes)?,
        array_stashes: copy_all(alloc, &rest.array_stashes)?,
        taken: rest.taken,
        output: Vec::from_slice(alloc, &rest.output)?,
        last: rest.last,
        lastin: rest.lastin,
    })
}
