//! Builds the lines of runs.

ghost use Rattle.std.specs.Prelude.{◌≡◌, ◌++◌, true, codes, OnOk};
ghost use Rattle.ick_backtrack.specs.Asked.{finish_of};
ghost use Rattle.ick_explorer.specs.Lines.{end_text, line_of};
ghost use Rattle.ick_explorer.specs.Tails.{tail_of};

use crate::choices::Choices;
use ick_backtrack::End;
use ick_bits::{NoMemory, append_all, append_quoted};
use itoa::Buffer;
use std::alloc::Global;
use std::marker::Model;

/// Appends the text of an end, between two spaces. If this call runs out of memory, `out` is
/// unchanged.
fn append_end(out: &mut Vec<u8>, end: End<'_>) -> Result<(), NoMemory>
    ensures { OnOk result (out.new.items ≡
        out.old.items ++ codes " " ++ end_text (finish_of end.entry) ++ codes " ") }
{
    match end {
        End::GiveUp => append_all(out, &[b" GIVE-UP "]),
        End::Limit => append_all(out, &[b" LIMIT "]),
        End::Fault(fault) => {
            let mut statement = Buffer::new();
            let statement = statement.format(u64::from(fault.statement)).as_bytes();
            append_all(out, &[b" E", &fault.kind.digits(), b"@", statement, b" "])
        }
    }
}

/// Holds the line that was built last, and a tail, which is all that follows the choices in a line.
/// Beside the tail are the end and the output that it tells. The next run often ends alike with the
/// same output, and then has the same tail. The memory is kept from line to line. Contracts see the
/// line and the tail.
#[derive(Drop)]
pub(crate) struct LineBuilder<'c> {
    line: Vec<u8>,
    tail: Vec<u8>,
    end: Option<End<'c>>,
    output: Vec<u8>,
}

impl<'c> Model for LineBuilder<'c> {
    ghost use Rattle.ick_explorer.specs.Tails.{Built, KeepsTail};

    ghost Value = { Built };

    ghost view = { λ b. record { line = b.line.items; tail = b.tail.items } };

    ghost invariant = { λ b. KeepsTail b.tail.items b.end b.output.items };
}

impl<'c> LineBuilder<'c> {
    /// Returns a builder that has built no line, and takes no memory.
    pub(crate) fn new(alloc: Global) -> LineBuilder<'c> {
        LineBuilder {
            line: Vec::new(alloc),
            tail: Vec::new(alloc),
            end: None,
            output: Vec::new(alloc),
        }
    }

    /// Returns the line that was built last.
    pub(crate) fn as_slice(&self) -> &[u8]
        ensures { result.now ≡ self.now.line }
    {
        self.line.as_slice()
    }

    /// Returns whether the tail is that of a run with this end and this output.
    fn tells(&self, end: End<'c>, output: &[u8]) -> bool
        ensures { result ≡ true → self.now.tail ≡ tail_of (finish_of end.entry) output.now }
    {
        match (self.end, end) {
            (Some(End::GiveUp), End::GiveUp) | (Some(End::Limit), End::Limit) => {
                self.output.as_slice() == output
            }
            _ => false,
        }
    }

    /// Makes the tail that of a run with this end and this output. If this call runs out of memory,
    /// it is no run's tail.
    #[inline(never)]
    fn write_tail(&mut self, end: End<'c>, output: &[u8]) -> Result<(), NoMemory>
        ensures { OnOk result (self.new.tail ≡ tail_of (finish_of end.entry) output.now) }
    {
        self.end = None;
        self.output.clear();
        self.output.extend_from_slice(output)?;
        self.tail.clear();
        append_end(&mut self.tail, end)?;
        append_quoted(&mut self.tail, output)?;
        self.tail.push(b'\n')?;
        self.end = Some(end);
        Ok(())
    }

    /// Builds the line of a run with these choices, this end and this output. If this call runs out
    /// of memory, the line is of no use.
    #[tactic(auto, unfolding(crate::specs::Lines::line_of))]
    pub(crate) fn build(
        &mut self,
        choices: &mut Choices,
        end: End<'c>,
        output: &[u8],
    ) -> Result<(), NoMemory>
        ensures line { OnOk result
            (self.new.line ≡ line_of choices.old (finish_of end.entry) output.now) }
        ensures same { choices.new ≡ choices.old }
    {
        if !self.tells(end, output) {
            self.write_tail(end, output)?;
        }
        self.line.clear();
        choices.append_text(&mut self.line)?;
        match self.line.extend_from_slice(self.tail.as_slice()) {
            Ok(()) => Ok(()),
            Err(_) => Err(NoMemory),
        }
    }
}
