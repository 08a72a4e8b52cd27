//! The subscripts of an element, or the dimensions that an array gets.

ghost use Rattle.std.specs.{Prelude.{◌<◌, length}, List.All};

/// Subscripts: numbers in registers.
#[derive(Clone, Copy)]
pub struct Subscripts<'p, 'r> {
    /// The registers that have them, in their order.
    pub order: &'p [u32],
    /// All registers.
    pub registers: &'r [u32],
    pub ghost within: { All (λ r. r < length registers.now) order.now },
}
