//! Numbers of two widths.

ghost use Rattle.std.specs.Prelude.{◌≡◌, ◌<◌};
ghost use Rattle.ick_bits.specs.Values.{Narrow, Wide, number_of, width_of, limit_of};

use std::marker::Model;

/// The number of bits of a value (Revised Manual, 3.1, after INTERCAL-72).
#[derive(Clone, Copy, Debug, PartialEq, Eq)]
pub enum Width {
    /// 16 bits: a onespot, an element of a tail, a mesh.
    Sixteen,
    /// 32 bits: a twospot, an element of a hybrid.
    ThirtyTwo,
}

/// A number with its width (Revised Manual, 3.1 and 3.2, after INTERCAL-72). The number always fits
/// the width.
///
/// Contracts see a value as `Narrow n` or `Wide n`.
#[derive(Clone, Copy, Debug)]
pub struct Value {
    number: u32,
    width: Width,
}

impl Model for Value {
    ghost use Rattle.ick_bits.specs.Values.{Bits};

    ghost Value = { Bits };

    ghost use Rattle.ick_bits.specs.ValueFields.{bits_in, IsWithin, fields_of};

    ghost view = { bits_in };

    ghost invariant = { IsWithin };

    ghost inverse = { fields_of };
}

impl Value {
    /// Returns the value of 16 bits with this number.
    pub fn sixteen(number: u16) -> Value
        ensures { result ≡ Narrow number }
    {
        Value {
            number: u32::from(number),
            width: Width::Sixteen,
        }
    }

    /// Returns the value of 32 bits with this number.
    pub fn thirty_two(number: u32) -> Value
        ensures { result ≡ Wide number }
    {
        Value {
            number,
            width: Width::ThirtyTwo,
        }
    }

    /// Returns how many bits the value has.
    pub fn width(self) -> Width
        ensures { result ≡ width_of self }
    {
        self.width
    }

    /// Returns the value's number, which is at most 65535 if its width is 16 bits.
    pub fn number(self) -> u32
        ensures value { result ≡ number_of self }
        ensures fits { result < limit_of (width_of self) }
    {
        self.number
    }
}
