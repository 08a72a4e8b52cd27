//! The statements at which steps stop.

ghost use Rattle.std.specs.Prelude.{◌≡◌, ◌≢◌, ℕ, Bool, true, false, OnErr, OnOk};
ghost use Rattle.ick_session.specs.Session.{has_breakpoint};

use ick_bits::NoMemory;
use std::alloc::Global;
use std::collections::BTreeSet;

/// The numbers of the statements that have a breakpoint.
#[derive(Drop)]
pub struct Breakpoints {
    statements: BTreeSet<u32>,
}

impl Breakpoints {
    /// Returns no breakpoints.
    pub fn new(alloc: Global) -> Breakpoints
        ensures { (n : ℕ) → has_breakpoint result n ≡ false }
    {
        Breakpoints {
            statements: BTreeSet::new(alloc),
        }
    }

    /// Returns whether a statement has a breakpoint.
    pub fn has(&self, statement: u32) -> bool
        ensures { result ≡ has_breakpoint self.now statement }
    {
        self.statements.contains(&statement)
    }

    /// Gives a statement a breakpoint. After a refusal of memory nothing has changed.
    pub fn set(&mut self, statement: u32) -> Result<(), NoMemory>
        ensures there { OnOk result (has_breakpoint self.new statement ≡ true) }
        ensures others { OnOk result ((m : ℕ) → m ≢ statement →
            has_breakpoint self.new m ≡ has_breakpoint self.old m) }
        ensures refused { OnErr result ((m : ℕ) →
            has_breakpoint self.new m ≡ has_breakpoint self.old m) }
    {
        self.statements.insert(statement)?;
        Ok(())
    }

    /// Takes a statement's breakpoint away.
    pub fn delete(&mut self, statement: u32)
        ensures there { has_breakpoint self.new statement ≡ false }
        ensures others { (m : ℕ) → m ≢ statement →
            has_breakpoint self.new m ≡ has_breakpoint self.old m }
    {
        let _had = self.statements.remove(&statement);
    }

    /// Takes all breakpoints away.
    pub fn clear(&mut self)
        ensures { (n : ℕ) → has_breakpoint self.new n ≡ false }
    {
        self.statements.clear();
    }
}
