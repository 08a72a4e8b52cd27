//! Names and their slots.

ghost use Rattle.std.specs.Prelude.{◌≡◌, ◌≤◌, true, List, [], length, OnOk};
ghost use Rattle.std.specs.List.{list_all, IsDistinct};
ghost use Rattle.std.specs.BTreeMap.{get};
ghost use Rattle.std.specs.Ordering.{nat_cmp};
ghost use Rattle.std.proofs.lemmas.Map.Keys.{IsDistinct-prop};
ghost use Rattle.ick_syntax.specs.declared.tree.Name.{Name as Named};
ghost use Rattle.ick_code.specs.meaning.State.{same_name};
ghost use Rattle.ick_code.specs.Names.{found, slot_in, with_name, rank_of, kind_rank, is_short};
ghost use Rattle.ick_code.specs.Names.{most_names};

use ick_bits::NoMemory;
use ick_syntax::{Name, NameKind};
use std::alloc::Global;
use std::collections::BTreeMap;

/// Distinct names in the order in which they were added. A name's slot is its index.
#[derive(Drop)]
pub struct Names {
    pub list: Vec<Name>,
    slots: BTreeMap<u32, u32>,
    ghost index: { (name : Named) → get nat_cmp slots (rank_of name) ≡ found list.items name },
    ghost once: { IsDistinct same_name list.items } by { IsDistinct-prop same_name list.items },
    ghost short: { list_all is_short list.items ≡ true },
}

impl Names {
    /// Returns an empty list of names.
    pub fn new(alloc: Global) -> Names
        ensures { result.list.items ≡ [] }
    {
        Names {
            list: Vec::new(alloc),
            slots: BTreeMap::new(alloc),
        }
    }

    /// Gives the name the next slot if it has none. Returns `NoMemory` if a list cannot grow.
    pub fn add(&mut self, name: Name) -> Result<(), NoMemory>
        ensures { OnOk result (self.new.list.items ≡ with_name self.old.list.items name) }
    {
        let rank = rank(name);
        if self.slots.contains_key(&rank) {
            return Ok(());
        }
        self.list.reserve(1)?;
        let slot = self.list.len() as u32;
        self.slots.insert(rank, slot)?;
        match self.list.push(name) {
            Ok(()) => Ok(()),
            Err(_) => unreachable!(),
        }
    }

    /// Returns the names in the order of their slots.
    pub fn into_list(self) -> Vec<Name>
        ensures names { result.items ≡ self.list.items }
        ensures few { length result.items ≤ most_names }
    {
        let Names { list, slots: _ } = self;
        list
    }

    /// Returns the slot of a name, or 0 if it has none.
    pub fn slot(&self, name: Name) -> u32
        ensures { result ≡ slot_in self.now.list.items name }
    {
        self.slots.get(&rank(name)).copied().unwrap_or(0)
    }
}

/// Returns the index of a name in the order of all names: by their numbers, and then by their
/// kinds.
fn rank(name: Name) -> u32
    ensures { result ≡ rank_of name }
{
    let kind = match name.kind {
        NameKind::Onespot => 0,
        NameKind::Twospot => 1,
        NameKind::Tail => 2,
        NameKind::Hybrid => 3,
    };
    4 * u32::from(name.number) + kind
}
