//! Pseudo-random numbers.

ghost use Rattle.std.specs.Prelude.{◌<◌};

/// A linear congruential generator.
#[derive(Drop)]
pub struct Words {
    pub state: u64,
}

impl Words {
    /// Returns the next number below a bound.
    pub fn below(&mut self, bound: u32) -> u32
        requires { 0 < bound }
        ensures { result < bound }
    {
        self.state = self
            .state
            .wrapping_mul(6_364_136_223_846_793_005)
            .wrapping_add(1_442_695_040_888_963_407);
        ((self.state >> 33) % u64::from(bound)) as u32
    }
}
