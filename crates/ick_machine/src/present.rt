//! The present state of a machine with marks, to be read.

ghost use Rattle.std.specs.Prelude.{◌≡◌, reverse};
ghost use Rattle.ick_machine.specs.RunIn.{CanGoOn};

use ick_backtrack::Backtrack;
use ick_engine::RawEnd;
use ick_instructions::Lowered;
use ick_runtime::Memory;

/// The parts that represent the present state of a machine: the memory, the end of the run, if
/// there is one, and the whole input. Its type says that the memory can be read.
#[derive(Clone, Copy)]
pub struct StateView<'m, 'c, 'a> {
    pub lowered: &'m Lowered<'c, 'a>,
    pub memory: &'m Memory,
    pub end: Option<RawEnd>,
    pub input: &'m [u8],
    pub ghost ready: { ∥ CanGoOn lowered.now memory.now ∥₁ },
}

impl<'m, 'c, 'a> StateView<'m, 'c, 'a> {
    /// States that the memory can be read.
    pub fn law(&self)
        ensures { CanGoOn self.now.lowered.now self.now.memory.now }
    {}
}

/// A machine that tells where its run is.
pub trait Inspect: Backtrack {
    /// Returns the program counter: the number of the statement that is met next, or one more than
    /// the program has.
    fn place(&self) -> u32
        ensures { (Self.seen self.now).state.place ≡ result };

    /// Returns the return addresses, the newest last.
    fn return_addresses(&self) -> &[u32]
        ensures { (Self.seen self.now).state.returns ≡ reverse result.now };
}
