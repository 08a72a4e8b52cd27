//! The traces that begin with a statement.

ghost use Rattle.std.specs.Prelude.{◌≡◌, ◌+◌, ◌-◌, ◌<◌, ◌≤◌, ◌^◌, [], IfOk, IfSome, OnOk, drop};
ghost use Rattle.std.specs.Prelude.{length, slice_get};
ghost use Rattle.ick_inspect.specs.Text.{Adds};
ghost use Rattle.ick_stages.specs.Registers.{lowered_names};
ghost use Rattle.ick_stages.specs.Traces.{AreOfProgram, addresses_text, after};
ghost use Rattle.ick_stages.specs.Traces.{came_by, came_from, first_of as first_in, found_number};
ghost use Rattle.ick_stages.specs.Traces.{made_line, number_in as number_found, over, over_by};
ghost use Rattle.ick_stages.specs.Traces.{over_line, over_text, over_word, passes as are_passed};
ghost use Rattle.ick_stages.specs.Traces.{pending_text, piece_by, spot_in, spot_text};
ghost use Rattle.ick_stages.specs.Traces.{trace_text, traces_text};
ghost use Rattle.ick_traces.specs.Spot.{spot};
ghost use Rattle.ick_traces.specs.Traces.{own_of as meant_by, pending_of, spot_of};
ghost use Rattle.ick_traces.specs.Traces.{way as way_in};

use crate::instruction::append_instruction;
use crate::registers::Registers;
use ick_bits::NoMemory;
use ick_inspect::Text;
use ick_instructions::{Instruction, Lowered, Operation};
use ick_traces::{
    Candidate, Fixed, Origin, SideExit, are_traces, build_candidate, fixed_statements,
};
use std::alloc::Global;

/// Where a run is along a trace.
#[derive(Drop)]
pub struct Place {
    /// The number of the statement that comes next.
    pub here: usize,
    /// How many steps the trace has made.
    pub steps: u64,
    /// The return addresses that are to be pushed, the newest first.
    pub pending: Vec<usize>,
}

/// Returns whether a statement is passed over whenever it is met.
fn passes(fixed: &Fixed, n: usize) -> bool
    ensures { result ≡ are_passed fixed.now n }
{
    match fixed.passed.get(n) {
        Some(mark) => *mark,
        None => false,
    }
}

/// Returns the first instruction of a statement.
fn first_of(lowered: &Lowered<'_, '_>, n: usize) -> Option<Instruction>
    ensures first { result ≡ first_in lowered.now.parts n }
    ensures there { IfSome result (λ _. n < length lowered.now.parts.starts.items) }
{
    let start = lowered.starts().get(n)?;
    lowered.instructions().get(*start as usize).copied()
}

/// Returns the number in the register of a constant, or 0 if there is no such constant.
fn number_in(lowered: &Lowered<'_, '_>, register: u32) -> usize
    ensures { result ≡ number_found lowered.now.parts register }
{
    let at = register.saturating_sub(lowered.layout().first);
    match lowered.constants().get(at as usize) {
        Some(number) => *number as usize,
        None => 0,
    }
}

/// Returns the return addresses that are to be pushed before an instruction of traces, the newest
/// first.
fn pending_at<'t>(candidate: &'t Candidate, m: Origin) -> &'t [u32]
    ensures { result.now ≡ pending_of candidate.now m }
{
    let all = candidate.traces.pending.as_slice();
    let rest = &all[(m.from as usize).min(all.len())..];
    &rest[..(m.count as usize).min(rest.len())]
}

impl Place {
    /// Returns the place where a trace begins.
    pub fn new(alloc: Global, n: u32) -> Place
        ensures { spot_in result ≡ spot n 0 [] }
    {
        Place {
            here: n as usize,
            steps: 0,
            pending: Vec::new(alloc),
        }
    }

    /// Goes to where a trace begins.
    fn begin(&mut self, n: u32)
        ensures { spot_in self.new ≡ spot n 0 [] }
    {
        self.here = n as usize;
        self.steps = 0;
        self.pending.clear();
    }

    /// Goes to where a trace is before one of its instructions.
    fn go_to(&mut self, candidate: &Candidate, m: Origin) -> Result<(), NoMemory>
        ensures spot { OnOk result (spot_in self.new ≡ spot_of candidate.now m) }
        ensures here { OnOk result (self.new.here < 4294967296) }
        ensures steps { OnOk result (self.new.steps < 4294967296) }
    {
        self.here = m.here as usize;
        self.steps = u64::from(m.steps);
        self.pending.clear();
        for address in pending_at(candidate, m) {
            self.pending.push(*address as usize)?;
        }
        Ok(())
    }

    /// Removes the newest return addresses, so many of them or all.
    fn remove(&mut self, count: usize) -> Result<(), NoMemory>
        ensures pending { OnOk result (self.new.pending.items ≡ drop count self.old.pending.items) }
        ensures here { self.new.here ≡ self.old.here }
        ensures steps { self.new.steps ≡ self.old.steps }
    {
        self.pending = self.pending.split_off(count.min(self.pending.len()))?;
        Ok(())
    }

    /// Returns the return address that is removed last if so many are, or 0 if there are fewer.
    fn address(&self, count: usize) -> usize
        ensures { result ≡ found_number
            (slice_get self.now.pending.items (count - 1)) }
    {
        match self.pending.get(count.saturating_sub(1)) {
            Some(address) => *address,
            None => 0,
        }
    }

    /// Moves over a statement by its own instruction, if a trace needs none for it.
    fn move_by(&mut self, lowered: &Lowered<'_, '_>, i: Instruction) -> Result<(), NoMemory>
        requires here { self.old.here + 1 < 2 ^ 64 }
        requires steps { self.old.steps < 4294967296 }
        ensures spot { OnOk result (spot_in self.new
            ≡ over_by lowered.now.parts (spot_in self.old) i i.operation) }
        ensures steps { OnOk result (self.new.steps ≡ self.old.steps + 1) }
    {
        self.steps += 1;
        let behind = self.here + 1;
        self.here = behind;
        match i.operation {
            Operation::Call => {
                self.here = i.number as usize;
                self.pending.insert(0, behind).or(Err(NoMemory))
            }
            Operation::Forget => self.remove(number_in(lowered, i.left)),
            Operation::Resume => {
                let count = number_in(lowered, i.left);
                self.here = self.address(count);
                self.remove(count)
            }
            _ => Ok(()),
        }
    }

    /// Moves over a statement for which a trace needs no instruction.
    fn move_over(&mut self, lowered: &Lowered<'_, '_>, fixed: &Fixed) -> Result<(), NoMemory>
        requires { self.old.steps < 4294967296 }
        ensures spot { OnOk result (spot_in self.new
            ≡ over lowered.now.parts fixed.now (spot_in self.old)) }
        ensures steps { OnOk result (self.new.steps ≡ self.old.steps + 1) }
    {
        if passes(fixed, self.here) {
            self.steps += 1;
            self.here += 1;
            return Ok(());
        }
        match first_of(lowered, self.here) {
            Some(i) => self.move_by(lowered, i),
            None => {
                self.steps += 1;
                Ok(())
            }
        }
    }

    /// Goes behind an instruction of a trace.
    fn go_behind(&mut self, i: Instruction)
        requires here { self.old.here + 1 < 2 ^ 64 }
        requires steps { self.old.steps < 4294967296 }
        ensures { spot_in self.new ≡ after i (spot_in self.old) }
    {
        if i.last {
            self.here += 1;
            self.steps += 1;
            if i.operation == Operation::Forget {
                self.pending.clear();
            }
        }
    }

    /// Goes to where a run comes from to the index of the trace that begins with a statement.
    fn come(
        &mut self,
        candidate: &Candidate,
        n: u32,
        start: usize,
        at: usize,
    ) -> Result<(), NoMemory>
        requires { start ≤ at }
        ensures { OnOk result (spot_in self.new ≡ came_from candidate.now n start at) }
    {
        if at == start {
            self.begin(n);
            return Ok(());
        }
        let i = candidate.traces.code.get(at - 1).copied();
        let m = candidate.origins.get(at - 1).copied();
        self.come_by(candidate, n, i, m)
    }

    /// Goes behind an instruction of traces, or to where the trace of a statement begins if there
    /// is no such instruction.
    fn come_by(
        &mut self,
        candidate: &Candidate,
        n: u32,
        i: Option<Instruction>,
        m: Option<Origin>,
    ) -> Result<(), NoMemory>
        ensures { OnOk result (spot_in self.new ≡ came_by candidate.now n i m) }
    {
        let Some(i) = i else {
            self.begin(n);
            return Ok(());
        };
        let Some(m) = m else {
            self.begin(n);
            return Ok(());
        };
        self.go_to(candidate, m)?;
        self.go_behind(i);
        Ok(())
    }
}

/// Appends return addresses, each behind a space.
fn append_addresses(text: &mut Text, pending: &[usize])
    ensures { Adds text.old text.new (addresses_text pending.now) }
{
    for address in pending {
        text.push(b" ");
        text.push_decimal(*address as u64);
    }
}

/// Appends the return addresses that are to be pushed, if there are any.
#[tactic(auto, unfolding(crate::specs::Traces::pending_text))]
fn append_pending(text: &mut Text, pending: &[usize])
    ensures { Adds text.old text.new (pending_text pending.now) }
{
    if !pending.is_empty() {
        text.push(b" pending");
        append_addresses(text, pending);
    }
}

/// Appends the steps that a trace has made, the statement that comes next, and the return addresses
/// that are to be pushed.
#[tactic(auto, unfolding(crate::specs::Traces::spot_text))]
fn append_place(text: &mut Text, place: &Place)
    ensures { Adds text.old text.new (spot_text (spot_in place.now)) }
{
    text.push(b"  trace ");
    text.push_decimal(place.steps);
    text.push(b" ");
    text.push_decimal(place.here as u64);
    append_pending(text, place.pending.as_slice());
    text.push(b": ");
}

/// Returns what is said of a statement for which a trace needs no instruction.
fn over_words(passed: bool) -> &'static [u8]
    ensures { result.now ≡ over_word passed }
{
    if passed { b"passed over" } else { b"-" }
}

/// Appends the line of a statement for which a trace needs no instruction.
#[tactic(auto, unfolding(crate::specs::Traces::over_line))]
fn append_over_line(text: &mut Text, place: &Place, fixed: &Fixed)
    ensures { Adds text.old text.new (over_line fixed.now (spot_in place.now)) }
{
    append_place(text, place);
    text.push(over_words(passes(fixed, place.here)));
    text.push(b"\n");
}

/// Appends the lines of the statements for which a trace needs no instruction, up to so many steps.
fn append_over(
    text: &mut Text,
    place: &mut Place,
    lowered: &Lowered<'_, '_>,
    fixed: &Fixed,
    steps: u8,
) -> Result<(), NoMemory>
    ensures { OnOk result (Adds text.old text.new (over_text lowered.now.parts fixed.now
        (steps - place.old.steps) (spot_in place.old))) }
{
    'over: while place.steps < steps as u64 {
        append_over_line(text, &*place, fixed);
        place.move_over(lowered, fixed)?;
    }
    Ok(())
}

/// Returns an instruction of traces as it is in the program.
fn own_of(exits: &[SideExit], i: Instruction) -> Instruction
    ensures { result ≡ meant_by exits.now i }
{
    if i.operation.is_calculation() {
        return i;
    }
    let right = match exits.get(i.right as usize) {
        Some(exit) => exit.subscripts,
        None => 0,
    };
    Instruction { right, ..i }
}

/// Appends the line of an instruction of traces, before which a run is at a place.
#[tactic(auto, unfolding(crate::specs::Traces::made_line))]
fn append_made(
    text: &mut Text,
    lowered: &Lowered<'_, '_>,
    candidate: &Candidate,
    place: &Place,
    i: Instruction,
    m: Origin,
)
    requires { spot_in place.now ≡ spot_of candidate.now m }
    ensures { Adds text.old text.new
        (made_line (lowered_names lowered.now) candidate.now i m) }
{
    append_place(text, place);
    let registers = Registers::of_lowered(&*lowered);
    let own = own_of(candidate.traces.exits.as_slice(), i);
    append_instruction(text, &registers, own);
    text.push(b"\n");
}

/// Appends the lines of the statements up to an instruction of traces, and its own. The place is
/// where a run comes from.
fn append_piece(
    text: &mut Text,
    place: &mut Place,
    lowered: &Lowered<'_, '_>,
    candidate: &Candidate,
    at: usize,
) -> Result<(), NoMemory>
    ensures { OnOk result (Adds text.old text.new (piece_by lowered.now candidate.now
        (spot_in place.old) (slice_get candidate.now.traces.code.items at)
        (slice_get candidate.now.origins.items at))) }
{
    let Some(i) = candidate.traces.code.get(at) else {
        return Ok(());
    };
    let Some(m) = candidate.origins.get(at) else {
        return Ok(());
    };
    append_over(text, place, lowered, &candidate.traces.fixed, m.steps)?;
    place.go_to(candidate, *m)?;
    append_made(text, lowered, candidate, &*place, *i, *m);
    Ok(())
}

/// Returns how many instructions there are before the end of a trace.
fn way(code: &[Instruction]) -> usize
    ensures way { result ≡ way_in code.now }
    ensures few { result ≤ length code.now }
{
    let mut count = 0;
    for i in code {
        if i.operation == Operation::Stop || i.operation == Operation::Resume {
            return count;
        }
        count += 1;
    }
    count
}

/// Appends the lines of the trace with an index, which begins with statement `n`, up to its end.
#[tactic(auto, unfolding(crate::specs::Traces::trace_text))]
fn append_trace(
    text: &mut Text,
    place: &mut Place,
    lowered: &Lowered<'_, '_>,
    candidate: &Candidate,
    n: u32,
    start: u32,
) -> Result<(), NoMemory>
    ensures { OnOk result (Adds text.old text.new
        (trace_text lowered.now candidate.now n start)) }
{
    let start = start as usize;
    let code = candidate.traces.code.as_slice();
    let count = way(&code[start.min(code.len())..]) + 1;
    for k in 0..count {
        place.come(candidate, n, start, start + k)?;
        append_piece(text, place, lowered, candidate, start + k)?;
    }
    Ok(())
}

/// Appends the lines of the trace that begins with statement `n`, if there is one. A line tells how
/// many steps the trace has made, the number of the statement that comes next, the return addresses
/// that are to be pushed, the newest first, and an instruction: `  trace 3 12 pending 10 8: Resume
/// t4`. It has `-` for an instruction if the trace needs none for the statement, and `passed over`
/// if the statement isn't done.
pub fn append_traces(
    text: &mut Text,
    place: &mut Place,
    lowered: &Lowered<'_, '_>,
    candidate: &Option<Candidate>,
    n: u32,
) -> Result<(), NoMemory>
    ensures { OnOk result (Adds text.old text.new
        (traces_text lowered.now candidate.now n)) }
{
    let Some(candidate) = candidate else {
        return Ok(());
    };
    match candidate.traces.heads.get(n as usize) {
        Some(start) => append_trace(text, place, lowered, candidate, n, *start),
        None => Ok(()),
    }
}

/// Returns the traces of a program with their origins, or `None` if they are not those of the
/// program; this would be a mistake of the rules by which they are built.
pub fn traces_of(alloc: Global, lowered: &Lowered<'_, '_>) -> Result<Option<Candidate>, NoMemory>
    ensures { IfOk result (AreOfProgram lowered.now) }
{
    let fixed = fixed_statements(alloc, lowered)?;
    let candidate = build_candidate(alloc, lowered, fixed)?;
    if are_traces(lowered, &candidate) {
        Ok(Some(candidate))
    } else {
        Ok(None)
    }
}
