//! The operators on the bits of values.

ghost use Rattle.std.specs.Prelude.{◌≡◌, ◌*◌, ◌<◌, ◌^◌};
ghost use Rattle.ick_bits.specs.Operators.{with_bits, mingled_bit, mingled, selected};
ghost use Rattle.ick_bits.specs.Operators.{unary, and_bit, or_bit, xor_bit};
ghost use Rattle.ick_bits.specs.Values.{limit_of};
ghost use Rattle.ick_bits.specs.declared.values.Width.TheVariants.{Sixteen};

use crate::faults::FaultKind;
use crate::tables::{ones_of_four, packed_four, spread_byte};
use crate::values::{Value, Width};

/// Alternates the bits of two numbers of 16 bits, the higher bit of each pair from `left` (Revised
/// Manual, 3.4.1, after INTERCAL-72). The result has 32 bits.
///
/// Returns `FaultKind::SixtyFour` if and only if a number is above 65535, whatever its width (this
/// profile).
#[tactic(auto, unfolding(crate::specs::Operators::mingled))]
pub fn mingle(left: Value, right: Value) -> Result<Value, FaultKind>
    ensures { result ≡ mingled left right }
{
    let (high, low) = (left.number(), right.number());
    if high > 65535 || low > 65535 {
        return Err(FaultKind::SixtyFour);
    }
    Ok(Value::thirty_two(alternated(high, low)))
}

/// Returns the 32 bits of `high` and `low` in turn: bit 2i + 1 is bit i of `high`, and bit 2i is
/// bit i of `low` (Revised Manual, 3.4.1, after INTERCAL-72). Both numbers are at most 65535.
/// `mingle` does the same for values, and checks this.
#[inline(always)]
pub fn alternated(high: u32, low: u32) -> u32
    requires high { high < limit_of Sixteen }
    requires low { low < limit_of Sixteen }
    ensures { result ≡ with_bits 32 (mingled_bit high low) }
{
    2 * spread(high) + spread(low)
}

/// Returns the 16 bits with a zero above each.
fn spread(number: u32) -> u32
    requires { number < limit_of Sixteen }
    ensures value { result ≡ with_bits 32 (mingled_bit 0 number) }
    ensures half { 2 * result < 2 ^ 32 }
{
    65536 * spread_byte(number / 256) + spread_byte(number % 256)
}

/// Returns the bits of `left` at the positions of the ones of `right`, packed to the right in their
/// order. The narrower operand has zeros above (Revised Manual, 3.4.1, after INTERCAL-72).
///
/// The result has 32 bits if `right` has more than 16 ones, and 16 bits otherwise. This is the rule
/// of INTERCAL-72, not that of Revised Manual, 3.4.1.1.
pub fn select(left: Value, right: Value) -> Value
    ensures { result ≡ selected left right }
{
    let (mut from, mut mask) = (left.number(), right.number());
    let mut packed: u32 = 0;
    let mut ones: u32 = 0;
    while mask != 0 {
        packed += packed_four(from % 16, mask % 16) << ones;
        ones += ones_of_four(mask % 16);
        from /= 16;
        mask /= 16;
    }
    let wide = ones > 16;
    if wide {
        Value::thirty_two(packed)
    } else {
        Value::sixteen(packed as u16)
    }
}

/// Returns the and of the value and the value rotated right by one place in its width. Each bit is
/// combined with the next higher bit, and the highest with the lowest. The width stays (Revised
/// Manual, 3.4.2, after INTERCAL-72).
pub fn unary_and(value: Value) -> Value
    ensures { result ≡ unary and_bit value }
{
    match value.width() {
        Width::Sixteen => {
            let bits = value.number() as u16;
            Value::sixteen(bits & bits.rotate_right(1))
        }
        Width::ThirtyTwo => {
            let bits = value.number();
            Value::thirty_two(bits & bits.rotate_right(1))
        }
    }
}

/// Returns the or of the value and the value rotated right by one place in its width. Each bit is
/// combined with the next higher bit, and the highest with the lowest. The width stays (Revised
/// Manual, 3.4.2, after INTERCAL-72).
pub fn unary_or(value: Value) -> Value
    ensures { result ≡ unary or_bit value }
{
    match value.width() {
        Width::Sixteen => {
            let bits = value.number() as u16;
            Value::sixteen(bits | bits.rotate_right(1))
        }
        Width::ThirtyTwo => {
            let bits = value.number();
            Value::thirty_two(bits | bits.rotate_right(1))
        }
    }
}

/// Returns the exclusive or of the value and the value rotated right by one place in its width.
/// Each bit is combined with the next higher bit, and the highest with the lowest. The width stays
/// (Revised Manual, 3.4.2, after INTERCAL-72).
pub fn unary_xor(value: Value) -> Value
    ensures { result ≡ unary xor_bit value }
{
    match value.width() {
        Width::Sixteen => {
            let bits = value.number() as u16;
            Value::sixteen(bits ^ bits.rotate_right(1))
        }
        Width::ThirtyTwo => {
            let bits = value.number();
            Value::thirty_two(bits ^ bits.rotate_right(1))
        }
    }
}
