//! A session: commands line by line, and their answers.

ghost use Rattle.std.specs.Prelude.{◌≡◌, ◌+◌, ◌<◌, ◌^◌, ◌++◌, ℕ};
ghost use Rattle.std.specs.Prelude.{IfErr, IfOk, OnErr, OnOk, [], length};
ghost use Rattle.std.specs.Prelude.{true, false, take};
ghost use Rattle.ick_devices.specs.Whole.{read_failures};
ghost use Rattle.ick_inspect.specs.Text.{Adds};
ghost use Rattle.ick_job.specs.JobEnd.{LeavesStreams, LeavesWriter, WhereAnswered};
ghost use Rattle.ick_session.specs.Session.{settings, seen};
ghost use Rattle.ick_step_cli.specs.Left.{IsLeftByLines, TakesLine};
ghost use Rattle.ick_syntax.specs.StatementTree.{statement_trees};
ghost use Rattle.ick_step_cli.specs.Talk.{IsFailure, Writes, meant, prompt, typed};

use ick_devices::{ByteSink, ByteSource, ReadFault, write_whole};
use ick_inspect::{LineColumn, Text};
use ick_job::{JobEnd, Message};
use ick_session::{Session, answer_line};
use ick_syntax::Statement;
use std::alloc::Global;
use std::mem::swap;

/// Reads a line without its line end. Returns whether there is a line. The text behind the last
/// line end is a line, unless it is empty.
fn read_line<R: ByteSource>(reader: &mut R, line: &mut Vec<u8>) -> Result<bool, ReadFault>
    requires { R.failed reader.old + 1 < 2 ^ 64 }
    ensures count { R.failed reader.new ≡ R.failed reader.old + read_failures result }
    ensures line { R.told ≡ true → IfOk result (λ some. some ≡ true →
        TakesLine line.new.items (R.left reader.old) (R.left reader.new)) }
    ensures end { R.told ≡ true → IfOk result (λ some. some ≡ false →
        (R.left reader.old ≡ []) × (R.left reader.new ≡ [])) }
{
    line.clear();
    for _at in 0..u64::MAX {
        let mut byte = [0];
        let Ok(count) = reader.read(&mut byte) else {
            return Err(ReadFault::Failed);
        };
        if count == 0 {
            return Ok(!line.is_empty());
        }
        if byte[0] == b'\n' {
            return Ok(true);
        }
        if line.push(byte[0]).is_err() {
            return Err(ReadFault::NoMemory);
        }
    }
    Err(ReadFault::NoMemory)
}

/// Puts the line that is answered into `last`: the line that was read, but at a terminal an empty
/// line repeats the last one.
fn take_line(terminal: bool, line: &mut Vec<u8>, last: &mut Vec<u8>)
    ensures { last.new.items ≡ meant terminal last.old.items line.old.items }
{
    if !terminal || !line.is_empty() {
        swap(line, last);
    }
}

/// Appends the prompt for the next line, if lines are typed at a terminal.
fn append_prompt(terminal: bool, out: &mut Text)
    ensures { Adds out.old out.new (prompt terminal) }
{
    if terminal {
        out.push(b"(ick) ");
    } else {
        out.push(b"");
    }
}

/// Writes a text and clears it. If memory was refused for the text, or the writer fails, the work
/// ends.
fn say<W: ByteSink>(out: &mut Text, writer: &mut W) -> Result<(), JobEnd>
    requires { W.failed writer.old + 1 < 2 ^ 64 }
    ensures ok { OnOk result (W.failed writer.new ≡ W.failed writer.old) }
    ensures err { IfErr result (λ job_end.
        LeavesWriter job_end (W.failed writer.old) (W.failed writer.new)) }
    ensures failure { IfErr result IsFailure }
    ensures all { W.told ≡ true → OnOk result ((out.old.refused ≡ false)
        × (W.written writer.new ≡ W.written writer.old ++ out.old.bytes.items)) }
    ensures cut { W.told ≡ true → OnErr result ((n : ℕ)
        × (W.written writer.new ≡ W.written writer.old ++ take n out.old.bytes.items)
        × (out.old.refused ≡ true → n ≡ 0)) }
{
    let Ok(bytes) = out.bytes() else {
        return Err(JobEnd::NoMemory);
    };
    match write_whole(writer, bytes) {
        Ok(()) => {
            out.clear();
            Ok(())
        }
        Err(_) => Err(JobEnd::WriteFailed),
    }
}

/// Answers the commands that the reader has, one a line, until `quit` or the end. Each answer is
/// written before the next command is read. The lines behind `quit` are left in the reader. Returns
/// how the work ends.
///
/// If the commands are typed at a terminal, a prompt is written before each line is read, and an
/// empty line repeats the last one.
///
/// `positions` has one position for each statement of the program, and `statements` are its
/// statements. The counts of failures of both devices must be
/// below their greatest values.
pub fn talk<R: ByteSource, W: ByteSink>(
    alloc: Global,
    positions: &[LineColumn],
    statements: &[Statement<'_>],
    session: &mut Session<'_, '_>,
    terminal: bool,
    reader: &mut R,
    writer: &mut W,
) -> JobEnd
    requires positions { length positions.now ≡ length (seen session.old).program }
    requires statements { statement_trees statements.now ≡ (seen session.old).program }
    requires reads { R.failed reader.old + 1 < 2 ^ 64 }
    requires writes { W.failed writer.old + 1 < 2 ^ 64 }
    ensures leaves { LeavesStreams result (R.failed reader.old) (R.failed reader.new)
        (W.failed writer.old) (W.failed writer.new) }
    ensures writes { R.told ≡ true → W.told ≡ true →
        Writes (settings session.old) positions.now
        (seen session.old) (typed terminal (R.left reader.old)) result
        (W.written writer.old) (W.written writer.new) }
    ensures left { R.told ≡ true → WhereAnswered result
        (IsLeftByLines (R.left reader.old) (R.left reader.new)) }
{
    let mut out = Text::new(alloc);
    let mut line = Vec::new(alloc);
    let mut last = Vec::new(alloc);
    session.append_here(positions, &mut out);
    append_prompt(terminal, &mut out);
    for _at in 0..u64::MAX {
        if let Err(job_end) = say(&mut out, writer) {
            return job_end;
        }
        match read_line(reader, &mut line) {
            Ok(true) => {}
            Ok(false) => return over(),
            Err(ReadFault::NoMemory) => return JobEnd::NoMemory,
            Err(ReadFault::Failed) => return JobEnd::ReadFailed,
        }
        take_line(terminal, &mut line, &mut last);
        if !answer_line(alloc, positions, statements, session, &last, &mut out) {
            return over();
        }
        append_prompt(terminal, &mut out);
    }
    JobEnd::InputTooLong
}

/// Returns how a session ends after its last command.
fn over() -> JobEnd
    ensures { result ≡ JobEnd.Answered 0 Message.Nothing }
{
    JobEnd::Answered {
        status: 0,
        message: Message::Nothing,
    }
}
