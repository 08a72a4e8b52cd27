//! Compares lists of choices.

ghost use Rattle.std.specs.Prelude.{◌≡◌, ◌≤◌, true, false, length, take};
ghost use Rattle.ick_explorer.specs.Order.{IsBelow};
ghost use Rattle.ick_outcomes.specs.Tallies.{lesser};

/// Tells how a list of choices compares with another list: at the first position at which they
/// differ it has 0 (`Before`) or 1 (`Behind`); or it is a prefix of the other list (`Short`); or
/// the other list is a prefix of it (`Longer`).
#[derive(Clone, Copy)]
pub(crate) enum Order {
    Before,
    Behind,
    Short,
    Longer,
}

/// The number of elements that are compared at once.
const BLOCK: usize = 64;

/// Returns a length up to which two lists are equal. It is a number of whole blocks.
#[tactic(auto, using(crate::proofs::PlaceByPlace::same_blocks))]
fn same_front(one: &[bool], other: &[bool]) -> usize
    ensures one { result ≤ length one.now }
    ensures other { result ≤ length other.now }
    ensures same { take result one.now ≡ take result other.now }
{
    let blocks = one.len().min(other.len()) / BLOCK;
    'fronts: for block in 0..blocks {
        let from = block * BLOCK;
        let same = one[from..from + BLOCK] == other[from..from + BLOCK];
        if !same {
            return from;
        }
    }
    blocks * BLOCK
}

/// Returns the number of bytes up to which two lists are equal, if both have so many.
pub(crate) fn same_bytes(one: &[u8], other: &[u8]) -> usize
    ensures one { result ≤ length one.now }
    ensures other { result ≤ length other.now }
    ensures same { take result one.now ≡ take result other.now }
{
    let least = one.len().min(other.len());
    'bytes: for at in 0..least {
        if one[at] != other[at] {
            return at;
        }
    }
    least
}

/// Compares two lists.
pub(crate) fn compare(one: &[bool], other: &[bool]) -> Order
    ensures below { result ≡ Order.Before → IsBelow one.now other.now }
    ensures above { result ≡ Order.Behind → IsBelow other.now one.now }
    ensures beginning { result ≡ Order.Short → lesser one.now other.now ≡ one.now }
    ensures longer { result ≡ Order.Longer → lesser one.now other.now ≡ other.now }
{
    'choices: for at in same_front(one, other)..one.len() {
        if at == other.len() {
            return Order::Longer;
        }
        if one[at] != other[at] {
            return if other[at] {
                Order::Before
            } else {
                Order::Behind
            };
        }
    }
    Order::Short
}

/// Returns whether the first list is earlier than the other list, or a prefix of it.
#[tactic(auto, using(crate::proofs::Uses::lesser_kept, crate::proofs::Uses::lesser_given))]
pub(crate) fn is_earlier_or_prefix(one: &[bool], other: &[bool]) -> bool
    ensures kept { result ≡ true → lesser one.now other.now ≡ one.now }
    ensures given { result ≡ false → lesser one.now other.now ≡ other.now }
{
    match compare(one, other) {
        Order::Before => true,
        Order::Short => true,
        Order::Behind => false,
        Order::Longer => false,
    }
}
