//! How often operations and instructions occur.

use ick_code::{Code, Op};
use ick_instructions::Lowered;
use std::alloc::Global;
use std::collections::BTreeMap;
use std::io;

/// How often each name occurs.
#[derive(Drop)]
pub struct Counts {
    pub all: BTreeMap<String, u64>,
}

impl Counts {
    /// Returns counts of nothing.
    pub fn new(alloc: Global) -> Counts {
        Counts {
            all: BTreeMap::new(alloc),
        }
    }

    /// Counts the operations of calculations and the instructions of a program.
    pub fn add(&mut self, alloc: Global, code: &Code, lowered: &Lowered) -> io::Result<()> {
        for at in 0..code.count() {
            for op in code.ops(at + 1) {
                self.add_operation(alloc, *op)?;
            }
        }
        for i in lowered.instructions() {
            let operation = i.operation;
            self.add_one(format!(in alloc; "instruction {operation:?}")?)?;
        }
        Ok(())
    }

    /// Prints each name and how often it occurs.
    pub fn print(&self, rt: &HostRuntime) -> io::Result<()> {
        for (name, count) in self.all.iter() {
            println!(rt; "{name} {count}")?;
        }
        Ok(())
    }

    fn add_operation(&mut self, alloc: Global, op: Op) -> io::Result<()> {
        match op {
            Op::And | Op::Or | Op::Xor | Op::Mingle | Op::Select => {
                self.add_one(format!(in alloc; "operation {op:?}")?)
            }
            Op::Load(_) => self.add_one(format!(in alloc; "operation Load")?),
            _ => Ok(()),
        }
    }

    fn add_one(&mut self, name: String) -> io::Result<()> {
        let before = self.all.get(&name).copied().unwrap_or(0);
        self.all.insert(name, before.saturating_add(1))?;
        Ok(())
    }
}
