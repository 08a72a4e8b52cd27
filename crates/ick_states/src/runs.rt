//! A program over an input, whose states can be copied and compared.

ghost use Rattle.std.specs.Prelude.{◌≡◌, IfOk};
ghost use Rattle.ick_code.specs.meaning.Move.{first_state};
ghost use Rattle.ick_code.specs.Compiled.{code_program};

use crate::comparing::{same, same_end};
use crate::hashing::hash;
use crate::measuring::size;
use crate::parts::mixed;
use crate::renewing::renew;
use ick_backtrack::Ask;
use ick_bits::NoMemory;
use ick_code::Code;
use ick_engine::{RawEnd, TextReader};
use ick_instructions::Lowered;
use ick_lowering::lower;
use ick_machine::{asked_at, end_of, make_steps};
use ick_marks::Saved;
use ick_outcomes::States;
use ick_runtime::{Memory, NoTraces, Nobody, fresh_memory};
use std::alloc::Global;

/// A state of a run that is kept apart from a memory, and how the run ended.
#[derive(Drop)]
pub struct KeptRun {
    saved: Saved,
    end: Option<RawEnd>,
}

/// A program over an input that is a text. Steps are made in a memory, which is lent for each call.
/// A call puts a state into the memory, makes its steps there, and keeps the state after them.
#[derive(Drop)]
pub struct StateSpace<'c, 'a> {
    alloc: Global,
    lowered: Lowered<'c, 'a>,
    input: &'c [u8],
    silent: bool,
}

impl<'c, 'a> StateSpace<'c, 'a> {
    ghost use Rattle.std.specs.Prelude.{◌≡◌, ◌≤◌, Bool, true, Some, None, Option, IfOk, OnOk};
    ghost use Rattle.ick_code.specs.meaning.Move.{ask, advance};
    ghost use Rattle.ick_backtrack.specs.Asked.{IsGoing};
    ghost use Rattle.ick_backtrack.specs.Steps.{IsPlain, RunsOn};
    ghost use Rattle.ick_runtime.specs.Inputs.{Input};
    ghost use Rattle.ick_machine.specs.RunIn.{CanGoOn, program_of, state_in};
    ghost use Rattle.ick_states.specs.Seen.{CanGoOnFrom, CanServe};
    ghost use Rattle.ick_states.specs.Seen.{ending_in, kept_state, present_state, seen_of};
    ghost use Rattle.ick_outcomes.specs.Programs.{ask as asks, advance as advances, hushed};
    ghost use Rattle.ick_outcomes.specs.Programs.{RunsOn as Moves};
    ghost use Rattle.ick_engine.specs.declared.exit.RawEnd.{RawEnd};

    /// Returns a program over an input. If it is `silent`, the output of runs is left out, and so
    /// is the place on the tape of output: states that differ by nothing else are equal. `NoMemory`
    /// is the only refusal.
    pub fn new(
        alloc: Global,
        code: &'c Code<'a>,
        input: &'c [u8],
        silent: bool,
    ) -> Result<StateSpace<'c, 'a>, NoMemory>
        ensures code { IfOk result (λ runs. runs.lowered.code.now ≡ code.now) }
        ensures input { IfOk result (λ runs. runs.input.now ≡ input.now) }
        ensures silent { IfOk result (λ runs. runs.silent ≡ silent) }
    {
        let lowered = lower(alloc, code)?;
        Ok(StateSpace {
            alloc,
            lowered,
            input,
            silent,
        })
    }

    /// Keeps the state that a memory represents.
    fn keep(&self, memory: &Memory, end: Option<RawEnd>) -> Result<KeptRun, NoMemory>
        requires { CanGoOn self.now.lowered memory.now }
        ensures kept { IfOk result (λ state. CanGoOnFrom self.now.lowered state.saved) }
        ensures states { IfOk result (λ state. (input : Input) →
            kept_state self.now.lowered input state.saved state.end
            ≡ state_in self.now.lowered input memory.now end) }
    {
        let saved = Saved::save(self.alloc, memory, &self.lowered)?;
        // `states` needs that the kept state is that of the memory.
        saved.law(&self.lowered);
        Ok(KeptRun { saved, end })
    }

    /// Returns whether two runs ended alike, or haven't ended.
    fn same_ends(&self, one: Option<RawEnd>, other: Option<RawEnd>) -> bool
        ensures same { result ≡ true → ending_in self.now one ≡ ending_in self.now other }
        ensures found { ending_in self.now one ≡ ending_in self.now other → result ≡ true }
    {
        let code = self.lowered.code;
        match (one, other) {
            (None, None) => true,
            (Some(one), Some(other)) => same_end(
                end_of(code, self.input, one),
                end_of(code, self.input, other),
            ),
            _ => false,
        }
    }

    /// Returns whether two states of the program are equal.
    fn same_runs(&self, one: &KeptRun, other: &KeptRun) -> bool
        ensures equal { result ≡ true → seen_of self.now one.now ≡ seen_of self.now other.now }
        ensures found { CanGoOnFrom self.now.lowered one.now.saved →
            CanGoOnFrom self.now.lowered other.now.saved →
            (seen_of self.now one.now).state ≡ (seen_of self.now other.now).state →
            result ≡ true }
    {
        // `found` needs that the instructions are those of the code.
        self.lowered.law();
        self.lowered.code.law();
        self.same_ends(one.end, other.end) && same(&one.saved, &other.saved, self.input.len())
    }

    /// Makes steps while nothing is asked and the run hasn't ended, at most as many as the limit.
    /// Returns their number.
    fn go_on(
        &self,
        memory: &mut Memory,
        end: &mut Option<RawEnd>,
        limit: u32,
    ) -> Result<u32, NoMemory>
        requires { CanGoOn self.now.lowered memory.old }
        ensures steady { CanServe self.now.lowered memory.new }
        ensures ready { OnOk result (CanGoOn self.now.lowered memory.new) }
        ensures runs { IfOk result (λ made. RunsOn IsPlain (program_of self.now.lowered)
            (present_state self.now memory.old end.old) made
            (present_state self.now memory.new end.new)) }
        ensures within { IfOk result (λ made. made ≤ limit) }
    {
        let program = &self.lowered;
        let notes = &mut Nobody;
        let reader = &mut TextReader::new(self.input);
        make_steps(program, memory, end, notes, reader, &NoTraces, limit, None)
    }

    /// Makes one step of a run that hasn't ended, and then further steps while nothing is asked, at
    /// most as many as the limit. Returns the number of the further steps.
    fn step_in(
        &self,
        memory: &mut Memory,
        end: &mut Option<RawEnd>,
        done: bool,
        limit: u32,
    ) -> Result<u32, NoMemory>
        requires ready { CanGoOn self.now.lowered memory.old }
        requires going { end.old ≡ None }
        ensures steady { CanServe self.now.lowered memory.new }
        ensures ready { OnOk result (CanGoOn self.now.lowered memory.new) }
        ensures runs { let program = program_of self.now.lowered in
            IfOk result (λ made. RunsOn IsPlain program
            (advance program (present_state self.now memory.old None) done) made
            (present_state self.now memory.new end.new)) }
        ensures within { IfOk result (λ made. made ≤ limit) }
    {
        let program = &self.lowered;
        // It has a length, so `Nobody` has room for the changes of any statement.
        let _longest = program.longest();
        let notes = &mut Nobody;
        let reader = &mut TextReader::new(self.input);
        let answer = Some(done);
        let _ = make_steps(program, memory, end, notes, reader, &NoTraces, 1, answer)?;
        self.go_on(memory, end, limit)
    }

    /// Makes the steps of `step_in` from a kept state, and keeps the state after them in its place.
    fn make_steps(
        &self,
        memory: &mut Memory,
        state: &mut KeptRun,
        done: bool,
        limit: u32,
    ) -> Result<u32, NoMemory>
        requires steady { CanServe self.now.lowered memory.old }
        requires kept { CanGoOnFrom self.now.lowered state.old.saved }
        requires going { IsGoing
            (ask (program_of self.now.lowered) (seen_of self.now state.old).state) }
        ensures steady { CanServe self.now.lowered memory.new }
        ensures kept { OnOk result (CanGoOnFrom self.now.lowered state.new.saved) }
        ensures runs { let program = program_of self.now.lowered in
            IfOk result (λ made. RunsOn IsPlain program
            (advance program (seen_of self.now state.old).state done) made
            (seen_of self.now state.new).state) }
        ensures within { IfOk result (λ made. made ≤ limit) }
    {
        state.saved.exchange(memory, &self.lowered);
        let mut end = None;
        let made = self.step_in(memory, &mut end, done, limit)?;
        renew(&mut state.saved, memory, &self.lowered)?;
        // `runs` needs that the kept state is that of the memory.
        state.saved.law(&self.lowered);
        state.end = end;
        Ok(made)
    }

    /// Leaves out the output of a kept state and its place on the tape of output, if the program is
    /// silent.
    fn hush(&self, saved: &mut Saved)
        requires { CanGoOnFrom self.now.lowered saved.old }
        ensures kept { CanGoOnFrom self.now.lowered saved.new }
        ensures states { (input : Input) (end : Option RawEnd) →
            kept_state self.now.lowered input saved.new end
            ≡ hushed self.now.silent (kept_state self.now.lowered input saved.old end) }
    {
        if self.silent {
            saved.rest.output.clear();
            saved.rest.last = 0;
        }
    }

    /// Makes the steps of `make_steps`, and then leaves out the output if the program is silent.
    fn move_on(
        &self,
        memory: &mut Memory,
        state: &mut KeptRun,
        done: bool,
        limit: u32,
    ) -> Result<u32, NoMemory>
        requires steady { CanServe self.now.lowered memory.old }
        requires kept { CanGoOnFrom self.now.lowered state.old.saved }
        requires going { let old = seen_of self.now state.old in IsGoing
            (asks old.program old.state) }
        ensures steady { CanServe self.now.lowered memory.new }
        ensures kept { OnOk result (CanGoOnFrom self.now.lowered state.new.saved) }
        ensures runs { let old = seen_of self.now state.old in IfOk result (λ made. Moves
            old.program (advances old.program old.state done) made
            (seen_of self.now state.new).state) }
        ensures within { IfOk result (λ made. made ≤ limit) }
    {
        let made = self.make_steps(memory, state, done, limit)?;
        self.hush(&mut state.saved);
        Ok(made)
    }
}

impl<'c, 'a> States<'c> for StateSpace<'c, 'a> {
    ghost use Rattle.ick_states.specs.Seen.{CanGoOnFrom, CanServe, key_of, seen_of, text_of};
    ghost use Rattle.ick_states.specs.Sizes.{saved_bytes};

    type State = Box<KeptRun>;

    type Tools = Memory;

    ghost text = { text_of };

    ghost seen = { λ runs state. seen_of runs state.value };

    ghost suits = { λ runs state. CanGoOnFrom runs.lowered state.value.saved };

    ghost serves = { λ runs memory. CanServe runs.lowered memory };

    ghost key = { λ runs state. key_of runs state.value };

    ghost size = { λ _ state. saved_bytes state.value.saved };

    fn is_silent(&self) -> bool {
        self.silent
    }

    fn output<'s>(&self, state: &'s Box<KeptRun>) -> &'s [u8] {
        &state.saved.rest.output
    }

    fn into_output(&self, state: Box<KeptRun>) -> Vec<u8> {
        let kept = Box::into_inner(state);
        let rest = kept.saved.rest;
        rest.output
    }

    fn asks(&self, state: &Box<KeptRun>) -> Ask<'c> {
        if let Some(ended) = state.end {
            return Ask::Ended(end_of(self.lowered.code, self.input, ended));
        }
        let saved = &state.saved;
        // What is asked needs which state is kept, since its status is that of the memory.
        saved.law(&self.lowered);
        asked_at(saved.statuses[saved.place as usize])
    }

    fn statement(&self, state: &Box<KeptRun>) -> u32 {
        state.saved.place
    }

    fn step(
        &self,
        tools: &mut Memory,
        state: Box<KeptRun>,
        done: bool,
        limit: u32,
    ) -> Result<(Box<KeptRun>, u32), NoMemory> {
        let mut state = state;
        let made = self.move_on(tools, &mut state, done, limit)?;
        Ok((state, made))
    }

    fn step_from(
        &self,
        tools: &mut Memory,
        state: &Box<KeptRun>,
        done: bool,
        limit: u32,
    ) -> Result<(Box<KeptRun>, u32), NoMemory> {
        let mut copy = self.copy(state)?;
        let made = self.move_on(tools, &mut copy, done, limit)?;
        Ok((copy, made))
    }

    fn copy(&self, state: &Box<KeptRun>) -> Result<Box<KeptRun>, NoMemory> {
        let copy = KeptRun {
            saved: state.saved.copy(self.alloc)?,
            end: state.end,
        };
        Ok(Box::new(self.alloc, copy)?)
    }

    fn same(&self, one: &Box<KeptRun>, other: &Box<KeptRun>) -> bool {
        self.same_runs(one, other)
    }

    fn hash(&self, state: &Box<KeptRun>) -> u64 {
        mixed(
            hash(&state.saved, self.input.len()),
            u64::from(state.end.is_some()),
        )
    }

    fn bytes(&self, state: &Box<KeptRun>) -> u64 {
        size(&state.saved)
    }

    fn law(&self, _state: &Box<KeptRun>) {}

    fn keys(&self) {
        // The clause needs that the instructions are those of the code.
        self.lowered.law();
        self.lowered.code.law();
    }
}

impl<'c, 'a> StateSpace<'c, 'a> {
    /// Returns a memory in which steps can be made. `NoMemory` is the only refusal.
    pub fn tools(&self) -> Result<Memory, NoMemory>
        ensures { IfOk result (λ memory. ⟦<StateSpace<'c, 'a> as States<'c>>⟧.serves
            self.now memory) }
    {
        fresh_memory(self.alloc, &self.lowered)
    }

    /// Returns the state in which runs begin. `NoMemory` is the only refusal.
    pub fn first(&self) -> Result<Box<KeptRun>, NoMemory>
        ensures state { IfOk result (λ state.
            ⟦<StateSpace<'c, 'a> as States<'c>>⟧.suits self.now state) }
        ensures first { IfOk result (λ state.
            ⟦<StateSpace<'c, 'a> as States<'c>>⟧.seen self.now state ≡ record {
              program = record {
                statements = code_program self.now.lowered.code.now;
                silent = self.now.silent;
              };
              state = first_state (code_program self.now.lowered.code.now) self.now.input.now;
            }) }
    {
        let memory = fresh_memory(self.alloc, &self.lowered)?;
        let state = self.keep(&memory, None)?;
        Ok(Box::new(self.alloc, state)?)
    }
}
