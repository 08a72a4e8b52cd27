//! A machine with marks that copies its state.

ghost use Rattle.std.specs.Prelude.{◌≡◌, [], IfOk, vec_len};
ghost use Rattle.ick_code.specs.{Compiled.code_program, meaning.Move.first_state};
ghost use Rattle.ick_machine.specs.{Copies.AreCopies, StateView.{present_program, present_state}};

use crate::{Inspect, StateView, Trailed};
use ick_backtrack::{Ask, Asks, Backtrack};
use ick_bits::NoMemory;
use ick_code::Code;
use ick_engine::RawEnd;
use ick_marks::Saved;
use std::alloc::Global;

/// A copy of a state, and how the run had ended.
#[derive(Drop)]
pub struct Copy {
    saved: Saved,
    end: Option<RawEnd>,
}

/// A machine with marks that copies its state at each mark, and goes back by taking the copy. The
/// machine that runs has no marks, so it notes the changes of one call alone.
#[derive(Drop)]
pub struct Copied<'c, 'a> {
    alloc: Global,
    machine: Trailed<'c, 'a>,
    copies: Vec<Copy>,
    ghost unmarked: { vec_len machine.marks ≡ 0 },
    ghost copied: { ∥ AreCopies machine.lowered.code.now machine.lowered.parts copies.items ∥₁ },
}

impl<'c, 'a> Copied<'c, 'a> {
    ghost use Rattle.ick_machine.specs.Seen.{copied_machine};

    /// Returns a machine without marks at the start of a run. Its count of work begins at `work`.
    /// `NoMemory` is returned if a growth was refused, or if `lower` finds the program too large.
    pub fn new(
        alloc: Global,
        code: &'c Code<'a>,
        input: &'c [u8],
        work: u64,
    ) -> Result<Copied<'c, 'a>, NoMemory>
        ensures { IfOk result (λ machine. ⟦<Copied<'c, 'a> as Backtrack>⟧.seen machine ≡ record {
          program = code_program code.now;
          state = first_state (code_program code.now) input.now;
          marks = [];
          work = work;
        }) }
    {
        Ok(Copied {
            alloc,
            machine: Trailed::new(alloc, code, input, work)?,
            copies: Vec::new(alloc),
        })
    }

    /// Returns the parts that represent the present state. Nothing changes.
    pub fn present(&self) -> StateView<'_, 'c, 'a>
        ensures program { present_program result ≡ (copied_machine self.now).program }
        ensures state { present_state result ≡ (copied_machine self.now).state }
    {
        self.machine.present()
    }
}

impl<'c, 'a> Backtrack for Copied<'c, 'a> {
    ghost use Rattle.ick_machine.specs.Seen.{copied_machine};

    ghost seen = { copied_machine };

    fn output(&self) -> &[u8] {
        self.machine.output()
    }

    fn work(&self) -> u64 {
        self.machine.work()
    }

    fn marks(&self) -> usize {
        self.copies.len()
    }

    fn step(&mut self, done: bool) -> Result<(), NoMemory> {
        self.machine.step(done)
    }

    fn mark(&mut self) -> Result<(), NoMemory> {
        let machine = &self.machine;
        machine.law();
        let program = machine.lowered.program();
        let saved = Saved::save(self.alloc, &machine.memory, program)?;
        // `ok` of `mark` needs that the kept state is the machine's.
        saved.law(program);
        let end = machine.end;
        self.copies.push(Copy { saved, end })?;
        Ok(())
    }

    fn back(&mut self) {
        let machine = &mut self.machine;
        machine.law();
        if let Some(Copy { mut saved, end }) = self.copies.pop() {
            machine.trail.clear();
            saved.exchange(&mut machine.memory, machine.lowered.program());
            machine.end = end;
        }
    }

    fn drop_mark(&mut self) {
        let _ = self.copies.pop();
    }
}

impl<'c, 'a> Asks<'c> for Copied<'c, 'a> {
    fn asks(&self) -> Ask<'c> {
        self.machine.asks()
    }

    fn run(&mut self, limit: u32) -> Result<u32, NoMemory> {
        self.machine.run(limit)
    }
}

impl<'c, 'a> Inspect for Copied<'c, 'a> {
    fn place(&self) -> u32 {
        self.machine.place()
    }

    fn return_addresses(&self) -> &[u32] {
        self.machine.return_addresses()
    }
}
