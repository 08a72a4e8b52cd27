//! Where the output of a run goes while the run goes on, and the reader by which it leaves.

ghost use Rattle.std.{proofs.lemmas.Bool.false≢true, specs.Prelude.{◌≡◌, ◌+◌, ◌<◌, ◌≤◌, ◌^◌, ◌++◌}};
ghost use Rattle.std.specs.Prelude.{ℕ, List, Bool, true, false, OnOk, length, take};
ghost use Rattle.ick_engine.specs.Feeds.{MayBeLeft, one_if, some_left};
ghost use Rattle.ick_machine.specs.{Live.{fed, seen}, Printing.{HasLeft, MayLeave}};
ghost use Rattle.ick_machine.specs.{Printing.outlet_failures, declared.live.Live.Live};

use crate::Live;
use ick_bits::NoMemory;
use ick_devices::Feed;
use ick_engine::{Line, Reader};
use std::snapshot::Snapshot;

/// Tells that a text wasn't written whole.
#[derive(Clone, Copy, Debug)]
pub struct OutletFault;

/// Tells why a run stopped short whose output leaves while it goes on.
#[derive(Clone, Copy, Debug)]
pub enum RunFault {
    /// Tells that a growth was refused.
    NoMemory,
    /// Tells that a read failed.
    Read,
    /// Tells that a write failed.
    Write,
}

/// Takes the output of a run while the run goes on. Before each call the count of failures must be
/// below 2^64 - 1.
pub trait Outlet: Drop {
    /// Whether `written` is what was written. It is false if nothing is known of the outlet.
    ghost told: { Bool };

    /// What was written.
    ghost written: { Self → List ℕ };

    /// How many writes have failed.
    ghost failed: { Self → ℕ };

    /// The name of the reference that the outlet holds, or any number if it holds none. No call
    /// changes it.
    ghost held: { Self → ℕ };

    /// Writes a text whole, or a prefix of it. A failure raises the count of failures by one.
    fn write(&mut self, text: &[u8]) -> Result<(), OutletFault>
        requires { failed self.old + 1 < 2 ^ 64 }
        ensures all { told ≡ true → OnOk result (written self.new ≡ written self.old ++ text.now) }
        ensures part { told ≡ true → (n : ℕ) × (n ≤ length text.now)
            × (written self.new ≡ written self.old ++ take n text.now) }
        ensures count { failed self.new ≡ failed self.old + outlet_failures result }
        ensures held { held self.new ≡ held self.old };
}

/// How many bytes of output a memory holds before it is cleared, without the last statement's.
const MOST_HELD: usize = 4096;

/// Lets the output of a machine leave while its run goes on. The run takes no input, and waits
/// before each WRITE IN. For contracts alone, it keeps the machine, its feed and the outlet as they
/// were when the run began.
#[derive(Drop)]
pub(crate) struct Printer<'c, 'a, F: Feed, O: Outlet> {
    pub(crate) outlet: O,
    /// The limit on steps of the run.
    pub(crate) limit: u32,
    /// How many bytes of the machine's output have left.
    pub(crate) shown: usize,
    /// Whether a write has failed.
    pub(crate) broken: bool,
    pub(crate) machine: Snapshot<Live<'c, 'a>>,
    pub(crate) feed: Snapshot<F>,
    pub(crate) first: Snapshot<O>,
    ghost room: { O.failed first.value + 1 < 2 ^ 64 },
    ghost count: { O.failed outlet ≡ O.failed first.value + one_if broken },
    ghost left: { ∥ (F.told ≡ true → O.told ≡ true → (n : ℕ) × (broken ≡ false → n ≡ shown)
        × HasLeft (seen machine.value).program (fed (F.left feed.value) (seen machine.value).state)
        limit (O.written first.value) (O.written outlet) n) ∥₁ },
}

impl<'c, 'a, F: Feed, O: Outlet> Reader for Printer<'c, 'a, F, O> {
    ghost Has = { λ p. MayBeLeft F.told false p.machine.value.line.items (F.left p.feed.value) };

    // What the outlet keeps, and how the run began.
    ghost Held = { ℕ × Live × F × ℕ × O };

    ghost held = { λ p. (O.held p.outlet, p.machine.value, p.feed.value, p.limit, p.first.value) };

    ghost waits = { λ _. true };

    ghost Prints = { λ held output. F.told ≡ true → MayLeave (seen held.1).program
        (fed (F.left held.2) (seen held.1).state) held.3 output };

    ghost some = { λ p. some_left F.told false p.machine.value.line.items (F.left p.feed.value)
        (λ e. absurd (false≢true e)) };

    fn is_waiting(&self) -> bool {
        true
    }

    fn leave(&mut self, output: &[u8]) -> Result<bool, NoMemory>
        requires { let reader = ⟦<Printer<'c, 'a, F, O> as Reader>⟧ in
            reader.Prints (reader.held self.old) output.now }
        ensures held { let reader = ⟦<Printer<'c, 'a, F, O> as Reader>⟧ in
            reader.held self.new ≡ reader.held self.old }
        ensures sound { OnOk result (self.new.broken ≡ false) }
        ensures all { F.told ≡ true → O.told ≡ true → OnOk result
            (O.written self.new.outlet ≡ O.written self.old.first.value ++ output.now) }
    {
        if self.broken || self.shown > output.len() {
            return Err(NoMemory);
        }
        if self.shown < output.len() {
            if let Err(_) = self.outlet.write(&output[self.shown..]) {
                self.broken = true;
                return Err(NoMemory);
            }
            self.shown = output.len();
        }
        Ok(self.shown > MOST_HELD)
    }

    fn line(&mut self, from: usize) -> Result<Option<Line>, NoMemory> {
        Err(NoMemory)
    }

    fn byte(&mut self, from: usize) -> Result<Option<(u8, usize)>, NoMemory> {
        Err(NoMemory)
    }
}
