//! Stashes of scalars and arrays.

ghost use Rattle.std.specs.Prelude.{◌≡◌, ◌<◌, ℕ, [], false, length, map, IfNone, IfSome, OnErr};
ghost use Rattle.std.{specs.{Prelude.OnOk, Bool.{OnFalse, OnTrue}}, proofs.Common.get_or};
ghost use Rattle.ick_runtime.specs.Undo.{at_slot, put_on, taken_off, with_array_stashes};
ghost use Rattle.ick_runtime.specs.Undo.{with_arrays, with_scalar_stashes, StashLike, StashesLike};
ghost use Rattle.ick_runtime.specs.View.{View, array_of, arrays_of, is_hidden, no_stash};
ghost use Rattle.ick_runtime.specs.View.{numbers_of, stash_in, used};
ghost use Rattle.ick_runtime.specs.{Noting.NotesOne, Stashes.ChangesAt, Stashes.IsPutOn};
ghost use Rattle.ick_runtime.specs.{Stashes.IsRestoredTo, Stashes.IsRetrieved, Stashes.IsTakenOff};
ghost use Rattle.ick_code.specs.meaning.State.{no_array};

use crate::change::{ArrayChange, Entry};
use crate::halt::Halt;
use crate::memory::{Array, Stash};
use crate::notes::Notes;
use ick_bits::{FaultKind, NoMemory};
use std::mem::swap;

/// Copies numbers over the buffer of others. If memory runs out, no number is left there.
fn copy_numbers(target: &mut Vec<u32>, numbers: &[u32]) -> Result<(), NoMemory>
    ensures ok { OnOk result (target.new.items ≡ numbers.now) }
    ensures err { OnErr result (target.new.items ≡ []) }
{
    // As many numbers, as there mostly are, are copied in half the instructions.
    if target.len() == numbers.len() {
        target.copy_from_slice(numbers);
        return Ok(());
    }
    target.clear();
    target.extend_from_slice(numbers)?;
    Ok(())
}

/// Copies an array over the buffers of another one. If memory runs out, the other one may have any
/// value.
fn copy_into(target: &mut Array, array: &Array) -> Result<(), NoMemory>
    ensures { OnOk result (array_of target.new ≡ array_of array.now) }
{
    copy_numbers(&mut target.dimensions, &array.dimensions)?;
    copy_numbers(&mut target.elements, &array.elements)
}

impl Stash<u32> {
    /// Puts a number on the stash. If memory runs out, nothing changes.
    fn save(&mut self, number: u32) -> Result<(), NoMemory>
        ensures ok { OnOk result (IsPutOn number (numbers_of self.old) (numbers_of self.new)) }
        ensures err { OnErr result (numbers_of self.new ≡ numbers_of self.old) }
    {
        if self.depth == self.items.len() {
            self.items.push(number)?;
        }
        self.items[self.depth] = number;
        self.depth += 1;
        Ok(())
    }

    /// Takes the newest number off, if there is one.
    fn take_newest(&mut self) -> Option<u32>
        ensures some { IfSome result (λ number. IsTakenOff number (numbers_of self.old)
            (numbers_of self.new)) }
        ensures none { IfNone result (used (numbers_of self.old) ≡ []) }
        ensures same { IfNone result (numbers_of self.new ≡ numbers_of self.old) }
    {
        if self.depth == 0 {
            return None;
        }
        self.depth -= 1;
        Some(self.items[self.depth])
    }
}

/// Exchanges an array for another one. Whether the first one is ignored stays.
pub fn exchange(array: &mut Array, other: &mut Array)
    ensures array { array_of array.new ≡ array_of other.old }
    ensures other { array_of other.new ≡ array_of array.old }
    ensures hidden { is_hidden array.new ≡ is_hidden array.old }
{
    let hidden = array.hidden;
    swap(array, other);
    array.hidden = hidden;
}

impl Stash<Array> {
    /// Takes the newest array off, in exchange for another one. Whether that one is ignored stays.
    fn exchange(&mut self, array: &mut Array)
        requires { 0 < self.old.depth }
        ensures taken { IsTakenOff (array_of array.new) (arrays_of self.old) (arrays_of self.new) }
        ensures hidden { is_hidden array.new ≡ is_hidden array.old }
    {
        self.depth -= 1;
        exchange(array, &mut self.items[self.depth]);
    }

    /// Makes spare room, if there is none. The arrays on the stash stay.
    fn grow(&mut self) -> Result<(), NoMemory>
        ensures spare { OnOk result (self.new.depth < length self.new.items.items) }
        ensures like { StashLike (arrays_of self.old) (arrays_of self.new) }
        ensures depth { self.new.depth ≡ self.old.depth }
    {
        if self.depth < self.items.len() {
            return Ok(());
        }
        let alloc = *self.items.allocator();
        self.items.push(Array {
            dimensions: Vec::new(alloc),
            elements: Vec::new(alloc),
            hidden: false,
        })?;
        Ok(())
    }

    /// Puts a copy of an array on the stash, over spare buffers. If memory runs out,
    /// the arrays on the stash stay.
    #[tactic(auto, using(crate::proofs::StashingLemmas::stashing))]
    pub fn save(&mut self, array: &Array) -> Result<(), NoMemory>
        ensures ok { OnOk result (IsPutOn (array_of array.now) (arrays_of self.old)
            (arrays_of self.new)) }
        ensures err { OnErr result (StashLike (arrays_of self.old) (arrays_of self.new)) }
    {
        self.grow()?;
        copy_into(&mut self.items[self.depth], array)?;
        self.depth += 1;
        Ok(())
    }

    /// Puts an array on the stash, in exchange for a spare one. Whether it is ignored stays. If
    /// memory runs out, the array and those on the stash stay.
    #[tactic(auto, using(crate::proofs::StashingLemmas::stashing))]
    pub fn put(&mut self, array: &mut Array) -> Result<(), NoMemory>
        ensures ok { OnOk result (IsPutOn (array_of array.old) (arrays_of self.old)
            (arrays_of self.new)) }
        ensures err { OnErr result (StashLike (arrays_of self.old) (arrays_of self.new)) }
        ensures stays { OnErr result (array_of array.new ≡ array_of array.old) }
        ensures hidden { is_hidden array.new ≡ is_hidden array.old }
    {
        self.grow()?;
        exchange(array, &mut self.items[self.depth]);
        self.depth += 1;
        Ok(())
    }
}

/// Takes the newest value off the stash in a slot, if there is one. Its room stays.
#[tactic(auto, using(crate::proofs::ArrayLists::items_mapped))]
pub fn drop_at<T: Drop>(stashes: &mut Vec<Stash<T>>, slot: u32)
    ensures { map stash_in stashes.new.items
        ≡ at_slot taken_off slot (map stash_in stashes.old.items) }
{
    if slot as usize >= stashes.len() {
        return;
    }
    let stash = &mut stashes[slot as usize];
    stash.depth = stash.depth.saturating_sub(1);
}

/// Puts a value back on the stash in a slot, if it has spare room, in exchange for what is there.
#[tactic(auto, using(crate::proofs::ArrayLists::items_mapped))]
pub fn put_at<T: Drop>(stashes: &mut Vec<Stash<T>>, slot: u32, value: &mut T)
    ensures { map stash_in stashes.new.items
        ≡ at_slot (put_on value.old) slot (map stash_in stashes.old.items) }
{
    if slot as usize >= stashes.len() {
        return;
    }
    let stash = &mut stashes[slot as usize];
    if stash.depth < stash.items.len() {
        swap(&mut stash.items[stash.depth], value);
        stash.depth += 1;
    }
}

/// Puts a number on the stash of the scalar in a slot, and notes that (Revised Manual, 4.4.5). If
/// memory runs out, nothing changes.
#[tactic(auto, using(crate::proofs::StashingLemmas::stashing))]
#[inline(always)]
pub fn save_scalar<N: Notes>(
    stashes: &mut Vec<Stash<u32>>,
    notes: &mut N,
    slot: u32,
    number: u32,
) -> Result<(), NoMemory>
    requires slot { slot < length stashes.old.items }
    requires room { 0 < N.room notes.old }
    ensures saved { OnOk result (ChangesAt slot (IsPutOn number)
        (map numbers_of stashes.old.items) (map numbers_of stashes.new.items)) }
    ensures same { OnErr result (map numbers_of stashes.new.items
        ≡ map numbers_of stashes.old.items) }
    ensures noted { NotesOne N.room N.low N.fixed N.changes notes.old notes.new }
    ensures notes { (k : ℕ) (v m : View) →
        v.parts.scalar_stashes ≡ map numbers_of stashes.old.items → N.Undoes notes.old k v m →
        N.Undoes notes.new k (with_scalar_stashes (map numbers_of stashes.new.items) v) m }
{
    stashes[slot as usize].save(number)?;
    // `notes` needs that views that are alike are undone alike.
    notes.law();
    notes.note(Entry::ScalarSaved(slot));
    Ok(())
}

/// Puts a copy of the array in a slot on its stash, and notes that (Revised Manual, 4.4.5). If
/// memory runs out, the arrays on the stash stay.
#[tactic(auto, using(crate::proofs::StashingLemmas::stashing))]
pub fn save_array<N: Notes>(
    arrays: &Vec<Array>,
    stashes: &mut Vec<Stash<Array>>,
    notes: &mut N,
    slot: u32,
) -> Result<(), NoMemory>
    requires array { slot < length arrays.now.items }
    requires slot { slot < length stashes.old.items }
    requires room { 0 < N.room notes.old }
    ensures saved { OnOk result (ChangesAt slot
        (IsPutOn (get_or (map array_of arrays.now.items) slot no_array))
        (map arrays_of stashes.old.items) (map arrays_of stashes.new.items)) }
    ensures same { OnErr result (StashesLike (map arrays_of stashes.old.items)
        (map arrays_of stashes.new.items)) }
    ensures noted { NotesOne N.room N.low N.fixed N.changes notes.old notes.new }
    ensures notes { (k : ℕ) (v m : View) →
        v.parts.array_stashes ≡ map arrays_of stashes.old.items → N.Undoes notes.old k v m →
        N.Undoes notes.new k (with_array_stashes (map arrays_of stashes.new.items) v) m }
{
    // `notes` needs that views that are alike are undone alike.
    notes.law();
    stashes[slot as usize].save(&arrays[slot as usize])?;
    notes.note(Entry::ArraySaved(slot));
    Ok(())
}

/// Takes the newest number off the stash of the scalar in a slot, and notes that. The number
/// becomes that of the scalar, unless stores to it lead elsewhere, as it is then ignored (Revised
/// Manual, 4.4.6). Returns whether there was a number. If there was none, nothing changes.
#[tactic(auto, using(crate::proofs::StashingLemmas::stashing))]
pub fn restore_scalar<N: Notes>(
    registers: &mut [u32],
    store_target: &[u32],
    stashes: &mut Vec<Stash<u32>>,
    notes: &mut N,
    slot: u32,
) -> bool
    requires slot { slot < length stashes.old.items }
    requires store_target { slot < length store_target.now }
    requires there { slot < length registers.old }
    requires room { 0 < N.room notes.old }
    ensures restored { OnTrue result (IsRestoredTo slot (get_or store_target.now slot 0)
        registers.old registers.new (map numbers_of stashes.old.items)
        (map numbers_of stashes.new.items)) }
    ensures none { OnFalse result (used (get_or (map numbers_of stashes.old.items) slot no_stash)
        ≡ []) }
    ensures registers { OnFalse result (registers.new ≡ registers.old) }
    ensures stashes { OnFalse result (map numbers_of stashes.new.items
        ≡ map numbers_of stashes.old.items) }
    ensures noted { NotesOne N.room N.low N.fixed N.changes notes.old notes.new }
    ensures notes { (k : ℕ) (v m : View) → v.registers ≡ registers.old →
        v.parts.scalar_stashes ≡ map numbers_of stashes.old.items → N.Undoes notes.old k v m →
        N.Undoes notes.new k (with_scalar_stashes (map numbers_of stashes.new.items)
        (record v { registers = registers.new })) m }
{
    let Some(number) = stashes[slot as usize].take_newest() else {
        return false;
    };
    // `notes` needs that views that are alike are undone alike.
    notes.law();
    notes.note(Entry::ScalarRestored(slot, number, registers[slot as usize]));
    if store_target[slot as usize] == slot {
        registers[slot as usize] = number;
    }
    true
}

/// Retrieves the array in a slot from its stash, and notes that (Revised Manual, 4.4.6). The newest
/// array is taken off. It becomes the array in the slot, unless that one is ignored. An empty stash
/// is a fault. Then, and if memory runs out, nothing changes.
#[tactic(auto, using(crate::proofs::StashingLemmas::stashing))]
pub fn restore_array<N: Notes>(
    arrays: &mut Vec<Array>,
    stashes: &mut Vec<Stash<Array>>,
    notes: &mut N,
    slot: u32,
) -> Result<(), Halt>
    requires array { slot < length arrays.old.items }
    requires slot { slot < length stashes.old.items }
    requires room { 0 < N.room notes.old }
    ensures retrieved { IsRetrieved result (get_or (map is_hidden arrays.old.items) slot false) slot
        (map array_of arrays.old.items) (map array_of arrays.new.items)
        (map arrays_of stashes.old.items) (map arrays_of stashes.new.items) }
    ensures hidden { map is_hidden arrays.new.items ≡ map is_hidden arrays.old.items }
    ensures noted { NotesOne N.room N.low N.fixed N.changes notes.old notes.new }
    ensures notes { (k : ℕ) (v m : View) → v.parts.arrays ≡ map array_of arrays.old.items →
        v.parts.array_stashes ≡ map arrays_of stashes.old.items → N.Undoes notes.old k v m →
        N.Undoes notes.new k (with_array_stashes (map arrays_of stashes.new.items)
        (with_arrays (map array_of arrays.new.items) v)) m }
{
    // `notes` needs that views that are alike are undone alike.
    notes.law();
    let stash = &stashes[slot as usize];
    if stash.depth == 0 {
        return Err(Halt::Fault(FaultKind::NothingStashed));
    }
    if arrays[slot as usize].hidden {
        let newest = &stash.items[stash.depth - 1];
        notes.note_array(ArrayChange::Taken, slot, newest)?;
        drop_at(stashes, slot);
        return Ok(());
    }
    let array = &mut arrays[slot as usize];
    notes.note_restored(slot, array)?;
    stashes[slot as usize].exchange(array);
    Ok(())
}
