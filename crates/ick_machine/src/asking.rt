//! What a machine asks before a step, and how its run ended.

ghost use Rattle.std.specs.Prelude.{◌≡◌, Some, option_map};
ghost use Rattle.ick_code.specs.{Compiled.code_program, meaning.Move.ask};
ghost use Rattle.ick_runtime.specs.{Inputs.input_of, Memory.view_in, Steady.IsReady};
ghost use Rattle.ick_machine.specs.{Asked.asked_by, Run.ending_of, Run.run_state};
ghost use Rattle.ick_backtrack.specs.Asked.{asked_of, finish_of, finished};

use ick_backtrack::{Ask, End};
use ick_bits::{Fault, FaultKind};
use ick_code::Code;
use ick_engine::RawEnd;
use ick_runtime::{Memory, Status};
use ick_traces::TracedProgram;

/// How a run ends, or stops.
#[derive(Clone, Copy, Debug, PartialEq, Eq)]
pub enum EndKind {
    /// GIVE UP was done (Revised Manual, 4.4.11).
    GiveUp,
    /// The fault of a statement, by its number; past the end that of the last, or 0 without any.
    Fault(FaultKind, u32),
    /// The limit on steps was reached (this profile). A machine never answers this.
    Limit,
    /// A choice was asked, and none was given (this profile). A machine never answers this.
    Wants,
}

/// What a machine without marks asks before a step: as one with marks, but no subject of a fault.
#[derive(Clone, Copy, Debug, PartialEq, Eq)]
pub enum LiveAsk {
    /// Nothing: there is one way to go on.
    Plain,
    /// Whether a statement is done that has this chance in hundredths, from 1 to 99, and isn't
    /// abstained from (Revised Manual, 4.3).
    Choice(u8),
    /// Nothing more: the run has ended. The end is neither `Limit` nor `Wants`.
    Ended(EndKind),
    /// Nothing more: a step had an error.
    Failed,
}

/// Returns how a run has ended, with the subject of its fault: the statement's text, or the word of
/// the input (Revised Manual, 9.2).
pub fn end_of<'c, 'a>(code: &'c Code<'a>, text: &'c [u8], ended: RawEnd) -> End<'c>
    ensures { Some (finish_of result) ≡ option_map finished (ending_of code.now
        (input_of text.now) (Some ended)) }
{
    let (kind, statement, subject) = match ended {
        RawEnd::GaveUp => return End::GiveUp,
        RawEnd::Faulted(kind, statement) => (kind, statement, &text[..0]),
        RawEnd::Unknown(statement) => {
            let is_there = statement > 0 && statement <= code.count();
            let subject = if is_there { code.text(statement) } else { b"" };
            (FaultKind::Unrecognised, statement, subject)
        }
        RawEnd::Word(statement, from, to) => {
            let to = to.min(text.len());
            (FaultKind::NoDigit, statement, &text[from.min(to)..to])
        }
    };
    End::Fault(Fault {
        kind,
        statement,
        subject,
    })
}

/// Returns what is asked at a statement with a status of the engine's memory (Revised Manual, 4.3):
/// a choice with its chance from 1 to 99, or nothing.
pub fn asked_at<'c>(status: Status) -> Ask<'c>
    ensures { asked_of result ≡ Some (asked_by status) }
{
    if status.asks() {
        return Ask::Choice(status.chance());
    }
    Ask::Plain
}

/// Returns what is asked before the next step of a run whose input is a text (Revised Manual, 4.3).
pub fn answer<'c, 'a>(
    lowered: &TracedProgram<'c, 'a>,
    memory: &Memory,
    end: Option<RawEnd>,
    text: &'c [u8],
) -> Ask<'c>
    requires { IsReady lowered.now.code.now lowered.now.parts (view_in memory.now) }
    ensures { asked_of result ≡ Some (ask (code_program lowered.now.code.now) (run_state
        lowered.now.code.now lowered.now.parts (input_of text.now) (view_in memory.now) end)) }
{
    if let Some(ended) = end {
        return Ask::Ended(end_of(lowered.program().code, text, ended));
    }
    asked_at(memory.statuses[memory.point.place as usize])
}
