//! What a state has at a name.

ghost use Rattle.std.specs.Prelude.{◌≡◌, IfOk};
ghost use Rattle.ick_machine.specs.StateView.{present_state};
ghost use Rattle.ick_session.specs.Changes.{alike, had_at};
ghost use Rattle.ick_session.specs.NameSnapshot.{Keeps, had};

use ick_bits::NoMemory;
use ick_inspect::{
    StateView, dimensions, elements, is_ignored, number, stashed_arrays, stashed_numbers,
};
use ick_syntax::Name;
use std::alloc::Global;

/// What a state had at a name: the number, the dimensions and elements, whether it was ignored, and
/// how many values were stashed of it.
#[derive(Drop)]
pub struct NameSnapshot {
    name: Name,
    number: u32,
    dimensions: Vec<u32>,
    elements: Vec<u32>,
    ignored: bool,
    numbers: usize,
    arrays: usize,
}

impl NameSnapshot {
    /// Returns what a state has at a name. `NoMemory` is the only refusal.
    pub fn of(
        alloc: Global,
        present: &StateView<'_, '_, '_>,
        name: Name,
    ) -> Result<NameSnapshot, NoMemory>
        ensures { IfOk result (λ held. Keeps held (present_state present.now) name) }
    {
        Ok(NameSnapshot {
            name,
            number: number(present, name),
            dimensions: Vec::from_slice(alloc, dimensions(present, name))?,
            elements: Vec::from_slice(alloc, elements(present, name))?,
            ignored: is_ignored(present, name),
            numbers: stashed_numbers(present, name).len(),
            arrays: stashed_arrays(present, name).len(),
        })
    }

    /// Returns whether a state has the same at the name.
    pub fn is_in(&self, present: &StateView<'_, '_, '_>) -> bool
        ensures { result ≡ alike (had self.now)
            (had_at (present_state present.now) self.now.name) }
    {
        self.number == number(present, self.name)
            && self.ignored == is_ignored(present, self.name)
            && self.numbers == stashed_numbers(present, self.name).len()
            && self.arrays == stashed_arrays(present, self.name).len()
            && self.dimensions.as_slice() == dimensions(present, self.name)
            && self.elements.as_slice() == elements(present, self.name)
    }
}
