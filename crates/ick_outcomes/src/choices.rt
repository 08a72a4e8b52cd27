//! Lists of choices, eight to a byte.

ghost use Rattle.std.specs.Prelude.{◌≡◌, ◌+◌, ◌*◌, ◌/◌, ◌%◌, ◌<◌, ◌≤◌, ◌++◌, ◌∷◌, [], length, take};
ghost use Rattle.std.specs.Prelude.{IfOk, IfSome, OnOk};
ghost use Rattle.ick_explorer.specs.Order.{IsBelow};
ghost use Rattle.ick_outcomes.specs.Packed.{bit, bits, choices_of, IsEarlier};

use crate::comparing::{Order, compare, same_bytes};
use ick_bits::NoMemory;
use smallvec::SmallVec;
use std::alloc::Global;

/// Choices, eight to a byte, and those behind the last eight. Contracts see them as one list.
#[derive(Drop)]
pub(crate) struct Choices {
    packed: SmallVec<u8, 16>,
    last: SmallVec<bool, 8>,
}

impl Choices {
    /// Returns no choices.
    pub(crate) fn new(alloc: Global) -> Choices
        ensures { choices_of result ≡ [] }
    {
        Choices {
            packed: SmallVec::new(alloc),
            last: SmallVec::new(alloc),
        }
    }

    /// Appends a choice.
    #[tactic(auto, using(crate::proofs::Packing::pushed_last))]
    pub(crate) fn push(&mut self, done: bool) -> Result<(), NoMemory>
        ensures { OnOk result (choices_of self.new ≡ choices_of self.old ++ done ∷ []) }
    {
        self.last.push(done)?;
        if self.last.len() == 8 {
            self.packed.push(pack(&self.last))?;
            self.last.clear();
        }
        Ok(())
    }

    /// Returns a copy, with room for one more.
    pub(crate) fn copy(&self, alloc: Global) -> Result<Choices, NoMemory>
        ensures { IfOk result (λ copy. choices_of copy ≡ choices_of self.now) }
    {
        Ok(Choices {
            packed: copy_bytes(alloc, &self.packed)?,
            last: SmallVec::from_slice(alloc, &self.last)?,
        })
    }

    /// Returns the choices one by one.
    pub(crate) fn all(&self, alloc: Global) -> Result<SmallVec<bool, 24>, NoMemory>
        ensures { IfOk result (λ all. all.items ≡ choices_of self.now) }
    {
        let mut all = SmallVec::new(alloc);
        'bytes: for at in 0..self.packed.len() {
            all.extend_from_slice(&unpack(self.packed[at]))?;
        }
        all.extend_from_slice(&self.last)?;
        Ok(all)
    }
}

/// Copies bytes, with room for one more.
fn copy_bytes(alloc: Global, bytes: &[u8]) -> Result<SmallVec<u8, 16>, NoMemory>
    ensures { IfOk result (λ copy. copy.items ≡ bytes.now) }
{
    let mut copy = SmallVec::new(alloc);
    copy.reserve(bytes.len() + 1)?;
    copy.extend_from_slice(bytes)?;
    Ok(copy)
}

/// Compares the choices behind so many equal bytes.
fn compare_behind(one: &Choices, other: &Choices, at: usize) -> Order
    requires one { at ≤ length one.now.packed.items }
    requires other { at ≤ length other.now.packed.items }
    requires same { take at one.now.packed.items ≡ take at other.now.packed.items }
    ensures before { result ≡ Order.Before → IsBelow (choices_of one.now) (choices_of other.now) }
    ensures behind { result ≡ Order.Behind → IsBelow (choices_of other.now) (choices_of one.now) }
{
    if at < one.packed.len() {
        let byte = unpack(one.packed[at]);
        if at < other.packed.len() {
            return compare(&byte, &unpack(other.packed[at]));
        }
        return compare(&byte, &other.last);
    }
    if at < other.packed.len() {
        return compare(&one.last, &unpack(other.packed[at]));
    }
    compare(&one.last, &other.last)
}

/// Returns whether the first list is the earlier one, or `None` if the lists don't differ at a
/// position that both have.
pub(crate) fn earlier(one: &Choices, other: &Choices) -> Option<bool>
    ensures { IfSome result (IsEarlier (choices_of one.now) (choices_of other.now)) }
{
    match compare_behind(one, other, same_bytes(&one.packed, &other.packed)) {
        Order::Before => Some(true),
        Order::Behind => Some(false),
        _ => None,
    }
}

/// Returns twice a number, and one more if a choice is 1.
#[tactic(auto, using(crate::proofs::Packing::bit_one, crate::proofs::Packing::bit_zero))]
fn doubled(number: u8, done: bool) -> u8
    requires { number < 128 }
    ensures half { result / 2 ≡ number }
    ensures odd { bit (result % 2) ≡ done }
    ensures within { result ≤ 2 * number + 1 }
{
    if done {
        return number * 2 + 1;
    }
    number * 2
}

/// Returns the byte that represents eight choices.
fn pack(choices: &[bool]) -> u8
    requires { length choices.now ≡ 8 }
    ensures { bits 8 result ≡ choices.now }
{
    let seven = doubled(0, choices[7]);
    let six = doubled(seven, choices[6]);
    let five = doubled(six, choices[5]);
    let four = doubled(five, choices[4]);
    let three = doubled(four, choices[3]);
    let two = doubled(three, choices[2]);
    let one = doubled(two, choices[1]);
    doubled(one, choices[0])
}

/// Returns whether a number is odd.
#[tactic(auto, using(crate::proofs::Packing::bit_on, crate::proofs::Packing::bit_off))]
fn is_odd(number: u8) -> bool
    ensures { result ≡ bit (number % 2) }
{
    if number % 2 == 0 {
        return false;
    }
    true
}

/// Returns the eight choices that a byte represents.
fn unpack(byte: u8) -> [bool; 8]
    ensures { result ≡ bits 8 byte }
{
    let one = byte / 2;
    let two = one / 2;
    let three = two / 2;
    let four = three / 2;
    let five = four / 2;
    let six = five / 2;
    let seven = six / 2;
    [
        is_odd(byte),
        is_odd(one),
        is_odd(two),
        is_odd(three),
        is_odd(four),
        is_odd(five),
        is_odd(six),
        is_odd(seven),
    ]
}
