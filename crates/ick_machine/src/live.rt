//! A machine without marks, which takes its input from a feed.
#![tactic(auto, unfolding(crate::specs::Live::seen))]

ghost use Rattle.std.specs.Prelude.{◌≡◌, ◌+◌, ◌<◌, ◌≤◌, ◌^◌, ◌++◌, [], true, false, length, Err};
ghost use Rattle.std.specs.Prelude.{IfOk, OnOk, OnErr, vec_len, vec_capacity};
ghost use Rattle.ick_code.specs.{Compiled.code_program, meaning.Move.{advance, ask, first_state}};
ghost use Rattle.ick_backtrack.specs.Asked.{IsGoing};
ghost use Rattle.ick_devices.specs.Feeds.{feed_failures};
ghost use Rattle.ick_machine.specs.{Feeds.MeetsInput, RunIn.CanGoOn};

use crate::asking::answer;
use crate::outlet::Printer;
use crate::steps::steps_of_exit;
use crate::{EndKind, LiveAsk, Outlet, RunFault, end_of, make_steps};
use ick_backtrack::{Ask, End};
use ick_bits::{NoMemory, append_message};
use ick_code::Code;
use ick_devices::{Feed, FeedFault};
use ick_engine::{FeedReader, RawEnd, Reader, do_lone_write_in};
use ick_lowering::lower;
use ick_runtime::{Memory, NoTraces, Nobody, fresh_memory};
use ick_syntax::Kind;
use ick_traces::{TracedProgram, add_traces};
use std::alloc::Global;
use std::snapshot::Snapshot;

/// Runs a program step by step, and reads its input from a feed when it needs it. Nothing is kept
/// that a run could go back to. Contracts see it as a program, a state, and whether it has failed.
/// The state is without its input, which the feed has, and its output is what was written since it
/// was last cleared.
#[derive(Drop)]
pub struct Live<'c, 'a> {
    lowered: TracedProgram<'c, 'a>,
    memory: Memory,
    end: Option<RawEnd>,
    /// The last line that was read.
    line: Vec<u8>,
    failed: bool,
    ghost ready: { ∥ (failed ≡ false → CanGoOn lowered memory) ∥₁ },
}

impl<'c, 'a> Live<'c, 'a> {
    ghost use Rattle.ick_machine.specs.Live.{seen, fed, live_ask, fault_message};
    ghost use Rattle.ick_machine.specs.Printing.{HasPrinted, IsAtInput, IsDone, Leaves, Prints};
    ghost use Rattle.ick_machine.specs.{Live.cleared, Printing.{is_error, run_reads, run_writes}};

    /// Returns a machine at the start of a program (Revised Manual, 3.1, 3.3). `NoMemory` is
    /// returned if a growth was refused, or if `lower` finds the program too large.
    pub fn new(alloc: Global, code: &'c Code<'a>) -> Result<Live<'c, 'a>, NoMemory>
        ensures { IfOk result (λ live. seen live ≡ record {
          program = code_program code.now;
          state = first_state (code_program code.now) [];
          failed = false;
        }) }
    {
        let lowered = lower(alloc, code)?;
        let mut memory = fresh_memory(alloc, &lowered)?;
        let followed = add_traces(alloc, lowered, &mut memory)?;
        Ok(Live {
            lowered: followed,
            memory,
            end: None,
            line: Vec::new(alloc),
            failed: false,
        })
    }

    /// What is asked before the next step (Revised Manual, 4.3): whether a statement is done that
    /// isn't abstained from and has a chance strictly between 0 and 100; or nothing, since there is
    /// one way to go on, or since the run has ended or the machine has failed.
    pub fn asks(&self) -> LiveAsk
        ensures { result ≡ live_ask (seen self.now) }
    {
        if self.failed {
            return LiveAsk::Failed;
        }
        match answer(&self.lowered, &self.memory, self.end, &self.line) {
            Ask::Plain => LiveAsk::Plain,
            Ask::Choice(chance) => LiveAsk::Choice(chance),
            Ask::Ended(End::Fault(fault)) => {
                LiveAsk::Ended(EndKind::Fault(fault.kind, fault.statement))
            }
            Ask::Ended(End::GiveUp | End::Limit) => LiveAsk::Ended(EndKind::GiveUp),
        }
    }

    /// Makes one step: the statement that is met is done or passed over (Revised Manual, 4.3), or
    /// the program goes past its last statement (this profile: fault 633). A line, or a byte, is
    /// taken off the feed when it is needed, and no byte more.
    ///
    /// Where a choice is asked, `done` is the choice; elsewhere it changes nothing. The machine
    /// must neither have ended nor failed, and the feed's count of failures must be below its
    /// greatest value. After an error it has failed, and its output is as before the step. `Read`
    /// raises the feed's count of failures by one, and every other answer leaves it. A step answers
    /// `Read` only if it meets a WRITE IN.
    #[inline(always)]
    pub fn step<F: Feed>(&mut self, done: bool, feed: &mut F) -> Result<(), FeedFault>
        requires sound { (seen self.old).failed ≡ false }
        requires going { IsGoing (ask (seen self.old).program (seen self.old).state) }
        requires room { F.failed feed.old + 1 < 2 ^ 64 }
        ensures advances { F.told ≡ true → OnOk result
            (fed (F.left feed.new) (seen self.new).state ≡ advance
            (seen self.old).program (fed (F.left feed.old) (seen self.old).state) done) }
        ensures program { (seen self.new).program ≡ (seen self.old).program }
        ensures ok { OnOk result ((seen self.new).failed ≡ false) }
        ensures err { OnErr result ((seen self.new).failed ≡ true) }
        ensures output { OnErr result ((seen self.new).state.output ≡
            (seen self.old).state.output) }
        ensures count { F.failed feed.new ≡ F.failed feed.old + feed_failures result }
        ensures held { F.held feed.new ≡ F.held feed.old }
        ensures reads { result ≡ Err FeedFault.Read →
            MeetsInput (seen self.old).program (seen self.old).state }
    {
        let program = self.lowered.program();
        let code = program.code;
        let here = self.memory.point.place;
        let allowed = here > 0 && here <= code.count() && matches!(code.kind(here), Kind::WriteIn);
        self.failed = true;
        let printed = self.memory.rest.output.clone()?;
        // It has a length, so `Nobody` has room for the changes of any statement.
        let _longest = program.longest();
        let reader = &mut FeedReader {
            feed,
            line: &mut self.line,
            allowed,
            last: Ok(true),
        };
        let memory = &mut self.memory;
        let end = &mut self.end;
        let notes = &mut Nobody;
        let answer = Some(done);
        let came = match do_lone_write_in(program, memory, reader) {
            Some(exit) => steps_of_exit(exit, 1, end),
            None => make_steps(program, memory, end, notes, reader, &NoTraces, 1, answer),
        };
        if let Err(fault) = reader.outcome(came) {
            self.memory.rest.output = printed;
            return Err(fault);
        }
        self.failed = false;
        Ok(())
    }

    /// Makes steps, as many as the limit allows, while the run goes on by itself: up to a choice or
    /// the end. A line, or a byte, is taken off the feed when a statement needs it, and no byte
    /// more. Output that the machine holds leaves first, and the output of each READ OUT as soon as
    /// the statement is done. Returns the number of steps, and gives the outlet back.
    ///
    /// The machine must not have failed, and the counts of failures of the feed and the outlet must
    /// be below their greatest values. No output is held then. After an error the machine has
    /// failed, and what was written is a prefix of the run's output. After `Read` a WRITE IN is the
    /// next statement, and exactly the output before it is written. `Read` raises the feed's count
    /// of failures by one, `Write` the outlet's, and every other answer leaves both.
    pub fn run<F: Feed, O: Outlet>(
        &mut self,
        limit: u32,
        feed: &mut F,
        outlet: O,
    ) -> (Result<u32, RunFault>, O)
        requires sound { (seen self.old).failed ≡ false }
        requires reads { F.failed feed.old + 1 < 2 ^ 64 }
        requires writes { O.failed outlet + 1 < 2 ^ 64 }
        ensures prints { let old = seen self.old in F.told ≡ true → Prints O.told old.program
            (fed (F.left feed.old) old.state) limit (fed (F.left feed.new) (seen self.new).state)
            (O.written outlet) (O.written result.1) result.0 }
        ensures input { let old = seen self.old in F.told ≡ true → result.0 ≡ Err RunFault.Read →
            IsAtInput O.told old.program (fed (F.left feed.old) old.state) limit
            (O.written outlet) (O.written result.1) }
        ensures rests { IfOk result.0 (λ k. IsDone limit k (seen self.new)) }
        ensures leaves { Leaves (seen self.old) (seen self.new) result.0 }
        ensures reads { F.failed feed.new ≡ F.failed feed.old + run_reads result.0 }
        ensures writes { O.failed result.1 ≡ O.failed outlet + run_writes result.0 }
        ensures held { F.held feed.new ≡ F.held feed.old }
        ensures given { O.held result.1 ≡ O.held outlet }
    {
        let mut outlet = outlet;
        let mut made = 0;
        'on: loop {
            let (ran, is_broken) = {
                let mut printer = Printer {
                    machine: Snapshot::of(&*self),
                    feed: Snapshot::of(&*feed),
                    first: Snapshot::of(&outlet),
                    outlet,
                    limit: limit - made,
                    shown: 0,
                    broken: false,
                };
                let ran = self.run_by(&mut printer);
                outlet = printer.outlet;
                (ran, printer.broken)
            };
            self.clear_output();
            match ran {
                Ok(more) => made += more,
                Err(_) if is_broken => return (Err(RunFault::Write), outlet),
                Err(_) => return (Err(RunFault::NoMemory), outlet),
            }
            if made == limit || !matches!(self.asks(), LiveAsk::Plain) {
                return (Ok(made), outlet);
            }
            match self.step(false, feed) {
                Ok(()) => made += 1,
                Err(FeedFault::NoMemory) => return (Err(RunFault::NoMemory), outlet),
                Err(FeedFault::Read) => return (Err(RunFault::Read), outlet),
            }
        }
    }

    /// Makes steps as `run` does, but stops before a WRITE IN, and may stop earlier if the memory
    /// holds much output. All output leaves by a printer, first what the machine holds.
    fn run_by<F: Feed, O: Outlet>(
        &mut self,
        printer: &mut Printer<'c, 'a, F, O>,
    ) -> Result<u32, NoMemory>
        requires sound { (seen self.old).failed ≡ false }
        requires machine { printer.old.machine.value ≡ self.old }
        ensures made { IfOk result (λ k. HasPrinted F.told O.told (seen self.old) (seen self.new)
            (F.left printer.old.feed.value) (O.written printer.old.first.value)
            (O.written printer.new.outlet) printer.old.limit k) }
        ensures sound { OnOk result (printer.new.broken ≡ false) }
        ensures program { (seen self.new).program ≡ (seen self.old).program }
        ensures failed { (seen self.new).failed ≡ is_error result }
        ensures held { let reader = ⟦<Printer<'c, 'a, F, O> as Reader>⟧ in
            reader.held printer.new ≡ reader.held printer.old }
    {
        let limit = printer.limit;
        self.failed = true;
        let _ = printer.leave(self.output())?;
        let program = self.lowered.program();
        let traces = &self.lowered;
        let memory = &mut self.memory;
        let end = &mut self.end;
        let notes = &mut Nobody;
        let made = make_steps(program, memory, end, notes, printer, traces, limit, None)?;
        let _ = printer.leave(self.output())?;
        self.failed = false;
        Ok(made)
    }

    /// Returns what was written since the output was last cleared.
    pub fn output(&self) -> &[u8]
        ensures { result.now ≡ (seen self.now).state.output }
    {
        &self.memory.rest.output
    }

    /// Clears the output, and changes nothing else. It takes no memory.
    pub fn clear_output(&mut self)
        ensures { seen self.new ≡ record (seen self.old) { state = cleared (seen self.old).state } }
    {
        self.memory.rest.output.clear();
    }

    /// Appends the message of the fault that the run has ended by, or nothing without a fault
    /// (Revised Manual, 9.1). The answer is `NoMemory` only if `out` had no room for the whole
    /// message and couldn't grow. `out` is then unchanged.
    pub fn append_fault(&self, out: &mut Vec<u8>) -> Result<(), NoMemory>
        ensures ok { OnOk result (out.new.items ≡ out.old.items ++ fault_message (seen self.now)) }
        ensures err { OnErr result (out.new.items ≡ out.old.items) }
        ensures full { OnErr result (vec_capacity out.old <
            vec_len out.old + length (fault_message (seen self.now))) }
        ensures capacity { vec_capacity out.old ≤ vec_capacity out.new }
    {
        let Some(ended) = self.end else {
            return Ok(());
        };
        match end_of(self.lowered.program().code, &self.line, ended) {
            End::Fault(fault) => append_message(out, &fault),
            End::GiveUp | End::Limit => Ok(()),
        }
    }
}
