//! Parts of kept states that are compared and hashed.

ghost use Rattle.std.specs.Prelude.{◌≡◌, ◌+◌, ◌≤◌, ℕ, true, length, map, slice_index};
ghost use Rattle.std.specs.Hash.FoldHasher.{folded_multiply};
ghost use Rattle.ick_states.specs.Hashed.{mix, mix_all as mixed_all, pair};
ghost use Rattle.ick_states.specs.Hashed.{mix_numbers as mixed_numbers, mix_pairs as mixed_pairs};

use ick_runtime::{Array, Stash};

/// A value that states are compared by, as far as a state has it.
pub trait Part {
    /// The type of what a state has of it.
    ghost Value: { Type 0 };

    /// What a state has of it.
    ghost value: { Self → Self.Value };

    /// A hash into which a value was mixed.
    ghost mixed: { ℕ → Self.Value → ℕ };

    /// Returns whether two values are the same.
    fn is_same(&self, other: &Self) -> bool
        ensures same { result ≡ true → value self.now ≡ value other.now }
        ensures found { value self.now ≡ value other.now → result ≡ true };

    /// Mixes the value into a hash.
    fn mix(&self, hash: u64) -> u64
        ensures { result ≡ mixed hash (value self.now) };
}

/// Multiplies two numbers, and joins the halves of the product.
fn folded(one: u64, other: u64) -> u64
    ensures { result ≡ folded_multiply one other }
{
    let product = one as u128 * other as u128;
    (product & 0xFFFF_FFFF_FFFF_FFFF) as u64 ^ (product >> 64) as u64
}

/// Mixes a number into a hash.
pub fn mixed(hash: u64, number: u64) -> u64
    ensures { result ≡ mix hash number }
{
    folded(hash ^ number, 0x9E37_79B9_7F4A_7C15)
}

/// Returns two numbers from an index on as one.
fn pair_at(numbers: &[u32], at: usize) -> u64
    requires { at + 2 ≤ length numbers.now }
    ensures { result ≡ pair (slice_index numbers.now at) (slice_index numbers.now (at + 1)) }
{
    numbers[at] as u64 | (numbers[at + 1] as u64) << 32
}

/// Mixes numbers into a hash, two at a time.
#[tactic(auto, using(crate::proofs::Mixing::two_by_two))]
fn mix_pairs(hash: u64, numbers: &[u32]) -> u64
    ensures { result ≡ mixed_pairs hash numbers.now }
{
    let mut hash = hash;
    for pair in 0..numbers.len() / 2 {
        hash = mixed(hash, pair_at(numbers, pair * 2));
    }
    if numbers.len() % 2 == 1 {
        hash = mixed(hash, u64::from(numbers[numbers.len() - 1]));
    }
    hash
}

/// Mixes numbers, and how many they are, into a hash.
pub fn mix_numbers(hash: u64, numbers: &[u32]) -> u64
    ensures { result ≡ mixed_numbers hash numbers.now }
{
    mix_pairs(mixed(hash, numbers.len() as u64), numbers)
}

/// An array. Whether it is ignored is compared apart.
impl Part for Array {
    ghost use Rattle.ick_code.specs.meaning.State.{Array as ArrayValue};
    ghost use Rattle.ick_runtime.specs.View.{array_of};
    ghost use Rattle.ick_states.specs.Hashed.{mix_array};

    ghost Value = { ArrayValue };

    ghost value = { array_of };

    ghost mixed = { mix_array };

    fn is_same(&self, other: &Array) -> bool {
        self.dimensions == other.dimensions && self.elements == other.elements
    }

    fn mix(&self, hash: u64) -> u64 {
        mix_numbers(mix_numbers(hash, &self.dimensions), &self.elements)
    }
}

/// A stash of numbers. Spare room doesn't matter.
impl Part for Stash<u32> {
    ghost use Rattle.std.specs.Prelude.{List};
    ghost use Rattle.ick_marks.specs.Saved.{numbers_on};

    ghost Value = { List ℕ };

    ghost value = { numbers_on };

    ghost mixed = { mixed_numbers };

    fn is_same(&self, other: &Stash<u32>) -> bool {
        self.items[..self.depth] == other.items[..other.depth]
    }

    fn mix(&self, hash: u64) -> u64 {
        mix_numbers(hash, &self.items[..self.depth])
    }
}

/// A stash of arrays. Spare room doesn't matter, nor whether an array on it is marked as ignored.
impl Part for Stash<Array> {
    ghost use Rattle.std.specs.Prelude.{List};
    ghost use Rattle.ick_code.specs.meaning.State.{Array as ArrayValue};
    ghost use Rattle.ick_marks.specs.Saved.{arrays_on};
    ghost use Rattle.ick_states.specs.Hashed.{mix_arrays};

    ghost Value = { List ArrayValue };

    ghost value = { arrays_on };

    ghost mixed = { mix_arrays };

    #[tactic(auto, using(crate::proofs::SameLists::value_by_value))]
    fn is_same(&self, other: &Stash<Array>) -> bool {
        are_same(&self.items[..self.depth], &other.items[..other.depth])
    }

    #[tactic(auto, using(crate::proofs::SameLists::value_by_value))]
    fn mix(&self, hash: u64) -> u64 {
        mix_all(hash, &self.items[..self.depth])
    }
}

/// Returns whether two lists have the same values.
#[tactic(auto, using(crate::proofs::SameLists::value_by_value))]
pub fn are_same<T: Part>(one: &[T], other: &[T]) -> bool
    ensures same { result ≡ true → map T.value one.now ≡ map T.value other.now }
    ensures found { map T.value one.now ≡ map T.value other.now → result ≡ true }
{
    if one.len() != other.len() {
        return false;
    }
    for at in 0..one.len() {
        if !one[at].is_same(&other[at]) {
            return false;
        }
    }
    true
}

/// Mixes a list of values, and how many they are, into a hash.
#[tactic(auto, using(crate::proofs::Mixing::value_by_value))]
pub fn mix_all<T: Part>(hash: u64, items: &[T]) -> u64
    ensures { result ≡ mixed_all T.mixed hash (map T.value items.now) }
{
    let mut hash = mixed(hash, items.len() as u64);
    for at in 0..items.len() {
        hash = items[at].mix(hash);
    }
    hash
}
