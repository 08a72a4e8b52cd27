//! Makes steps until a run comes to a statement, or back from a NEXT.

ghost use Rattle.std.specs.Prelude.{◌≡◌, ◌==◌, ◌<◌, length, not, nat_lt, Err, IfErr, IfOk};
ghost use Rattle.std.specs.Prelude.{OnErr};
ghost use Rattle.ick_step.specs.Arrival.{has_come};

use crate::history::History;
use ick_backtrack::{Asks, Backtrack};
use ick_explorer::RunsError;
use ick_machine::Inspect;

/// Where steps lead to.
#[derive(Clone, Copy)]
pub(crate) enum Target {
    /// To a statement, which is met next.
    Statement(u32),
    /// To a NEXT stack of at most so many return addresses.
    Depth(usize),
}

/// Returns whether a machine has come to a target.
fn is_at<M: Inspect>(machine: &M, target: Target) -> bool
    ensures { result ≡ has_come target (M.seen machine.now).state }
{
    match target {
        Target::Statement(statement) => machine.place() == statement,
        Target::Depth(depth) => machine.return_addresses().len() <= depth,
    }
}

impl<M: Backtrack> History<M> {
    ghost use Rattle.ick_step.specs.Seen.{later, present, IsFull};
    ghost use Rattle.ick_step.specs.Histories.{history};
    ghost use Rattle.ick_step.specs.Arrival.{Breaks, IsBreak, StopsFirst};

    /// Makes steps until the target, as `until` does.
    fn step_to<'c>(&mut self, target: Target, limit: u32) -> Result<u32, RunsError>
    where
        M: Asks<'c> + Inspect,
        ensures ok { IfOk result (λ k. history self.new ≡ later k (history self.old)) }
        ensures stops { IfOk result (λ k.
            StopsFirst (has_come target) (history self.old) limit k) }
        ensures full { IsFull (history self.old) 1 → 0 < limit →
            result ≡ Err RunsError.WorkFull }
        ensures errors { IfErr result (IsBreak (history self.new)) }
        ensures err { OnErr result (Breaks (has_come target) (history self.old) limit
            (history self.new)) }
    {
        let mut made = 0;
        'on: while made < limit {
            // The clause `errors` speaks of this very error.
            let more = match self.step(1) {
                Ok(more) => more,
                Err(error) => return Err(error),
            };
            if more == 0 {
                return Ok(made);
            }
            made += 1;
            if is_at(self.machine(), target) {
                return Ok(made);
            }
        }
        Ok(made)
    }

    /// Makes at least one step, and stops as soon as the statement with this number is met next, or
    /// at a choice, the end of the run or the limit on steps. Returns the number of steps.
    ///
    /// The refusals are `NoMemory`, and `WorkFull` if the count of work has come to its greatest
    /// value before the run stops. After both at most as many steps were made as the limit allows,
    /// each of them whole, and none but the last has led to the statement.
    pub fn until<'c>(&mut self, statement: u32, limit: u32) -> Result<u32, RunsError>
    where
        M: Asks<'c> + Inspect,
        ensures ok { IfOk result (λ k. history self.new ≡ later k (history self.old)) }
        ensures stops { IfOk result (λ k.
            StopsFirst (λ t. t.place == statement) (history self.old) limit k) }
        ensures full { IsFull (history self.old) 1 → 0 < limit →
            result ≡ Err RunsError.WorkFull }
        ensures errors { IfErr result (IsBreak (history self.new)) }
        ensures err { OnErr result (Breaks (λ t. t.place == statement) (history self.old) limit
            (history self.new)) }
    {
        self.step_to(Target::Statement(statement), limit)
    }

    /// Makes a step, and if it is a NEXT, the steps until the run comes back from it: it stops as
    /// soon as the NEXT stack has no more return addresses than before the call, or at a choice,
    /// the end of the run or the limit on steps. Returns the number of steps. The refusals are
    /// those of `until`.
    pub fn next<'c>(&mut self, limit: u32) -> Result<u32, RunsError>
    where
        M: Asks<'c> + Inspect,
        ensures ok { IfOk result (λ k. history self.new ≡ later k (history self.old)) }
        ensures stops { let s = history self.old in IfOk result (λ k. StopsFirst
            (λ t. not (nat_lt (length (present s).returns) (length t.returns))) s limit k) }
        ensures full { IsFull (history self.old) 1 → 0 < limit →
            result ≡ Err RunsError.WorkFull }
        ensures errors { IfErr result (IsBreak (history self.new)) }
        ensures err { let s = history self.old in OnErr result (Breaks
            (λ t. not (nat_lt (length (present s).returns) (length t.returns))) s limit
            (history self.new)) }
    {
        let depth = self.machine().return_addresses().len();
        self.step_to(Target::Depth(depth), limit)
    }
}
