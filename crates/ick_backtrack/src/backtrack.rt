//! Machines with marks.

ghost use Rattle.std.specs.Prelude.{◌≡◌, ◌+◌, ◌-◌, ◌<◌, ◌≤◌, ◌^◌, ℕ};
ghost use Rattle.std.specs.Prelude.{[], ◌∷◌, ◌++◌, length, take, Some, IfOk, OnOk, OnErr};
ghost use Rattle.ick_code.specs.meaning.Move.{ask, advance};
ghost use Rattle.ick_backtrack.specs.Machine.{Machine};
ghost use Rattle.ick_backtrack.specs.Asked.{asked_of, IsGoing};
ghost use Rattle.ick_backtrack.specs.Steps.{IsPlain, HasRun, Rests};

use crate::asking::Ask;
use ick_bits::NoMemory;

/// A machine that runs a program step by step and can be set back to marked states. Contracts see
/// it as a program, a state, the marked states (the latest last) and a count of work.
pub trait Backtrack: Drop {
    ghost seen: { Self → Machine };

    /// Returns what the run has written so far, in the present state.
    fn output(&self) -> &[u8]
        ensures { result.now ≡ (seen self.now).state.output };

    /// Returns the count of work: the number that it began at, and one more for each step that was
    /// made, those that `back` took back included.
    fn work(&self) -> u64
        ensures { result ≡ (seen self.now).work };

    /// Returns the number of marked states.
    fn marks(&self) -> usize
        ensures { result ≡ length (seen self.now).marks };

    /// Makes one step: does or passes over the statement that is met (Revised Manual, 4.3). Past
    /// the last statement it ends the run by fault 633 (this profile). The count of work rises by
    /// one. Beside this call only `Asks::run` changes the count.
    ///
    /// If the machine asks for a choice, `done` says whether the statement is done. Else `done`
    /// changes nothing. The run must not have ended, and the count must be below 2^64 - 1. After
    /// `NoMemory` state, marks and count are unchanged.
    fn step(&mut self, done: bool) -> Result<(), NoMemory>
        requires going { IsGoing (ask (seen self.old).program (seen self.old).state) }
        requires room { (seen self.old).work < 2 ^ 64 - 1 }
        ensures ok { OnOk result (seen self.new ≡ record (seen self.old) {
          state = advance (seen self.old).program (seen self.old).state done;
          work = (seen self.old).work + 1;
        }) }
        ensures err { OnErr result (seen self.new ≡ seen self.old) };

    /// Marks the present state. After `NoMemory` state, marks and count are unchanged.
    fn mark(&mut self) -> Result<(), NoMemory>
        ensures ok { OnOk result (seen self.new ≡ record (seen self.old) {
          marks = (seen self.old).marks ++ (seen self.old).state ∷ [];
        }) }
        ensures err { OnErr result (seen self.new ≡ seen self.old) };

    /// Sets the machine back to the last marked state, and removes that mark. There must be a mark.
    /// The count of work is unchanged, and no memory is taken.
    fn back(&mut self)
        requires { 0 < length (seen self.old).marks }
        ensures { seen self.old ≡ record (seen self.new) {
          state = (seen self.old).state;
          marks = (seen self.new).marks ++ (seen self.new).state ∷ [];
        } };

    /// Removes the last mark. There must be one. State and count of work are unchanged.
    fn drop_mark(&mut self)
        requires { 0 < length (seen self.old).marks }
        ensures { seen self.new ≡ record (seen self.old) {
          marks = take (length (seen self.old).marks - 1) (seen self.old).marks;
        } };
}

/// A machine with marks that tells what it asks, and goes on while it asks nothing. `'c` is the
/// lifetime of the code: the message of a fault shows a text of it.
pub trait Asks<'c>: Backtrack {
    /// Returns what is asked before the next step (Revised Manual, 4.3). A choice is asked if the
    /// statement that is met has a chance from 1 to 99 and isn't abstained from. If there is one
    /// way to go on, nothing is asked. If the run has ended, the answer says how.
    fn asks(&self) -> Ask<'c>
        ensures { let machine = Self.seen self.now in
            asked_of result ≡ Some (ask machine.program machine.state) };

    /// Makes steps while nothing is asked and the run hasn't ended, at most as many as the limit.
    /// Returns their number, by which the count of work rises. Marks are unchanged.
    ///
    /// The count of work and the limit together must be below 2^64. After `NoMemory` fewer steps
    /// than the limit were made, each of them whole, and the count of work rose by their number.
    fn run(&mut self, limit: u32) -> Result<u32, NoMemory>
        requires { (Self.seen self.old).work + limit < 2 ^ 64 }
        ensures ok { IfOk result (λ k. HasRun (Self.seen self.old) k (Self.seen self.new)) }
        ensures err { OnErr result ((k : ℕ) × (k < limit)
            × HasRun (Self.seen self.old) k (Self.seen self.new)) }
        ensures within { IfOk result (λ k. k ≤ limit) }
        ensures rests { let new = Self.seen self.new in
            IfOk result (λ k. Rests IsPlain new.program limit k new.state) };
}
