//! `ick check`: how many statements a program has.
ghost use Rattle.std.specs.Prelude.{◌≡◌, ◌+◌, ◌<◌, ◌^◌, true};
ghost use Rattle.ick_syntax.specs.Programs.{trees_of};
ghost use Rattle.ick_job.specs.JobEnd.{Answers, LeavesWriter};
ghost use Rattle.ick_cli.specs.Summary.{summary};
ghost use Rattle.ick_job.specs.Answer.{shown};

use ick_devices::ByteSink;
use ick_job::{JobEnd, Message, send};
use ick_syntax::Program;
use std::alloc::{AllocError, Global};

/// Answers a program by the line that counts its statements.
pub fn answer_check<W: ByteSink>(alloc: Global, program: &Program<'_>, writer: &mut W) -> JobEnd
    requires { W.failed writer.old + 1 < 2 ^ 64 }
    ensures leaves { LeavesWriter result (W.failed writer.old) (W.failed writer.new) }
    ensures answer { W.told ≡ true → Answers (shown (summary (trees_of program.now)))
        result (W.written writer.old) (W.written writer.new) }
{
    let statements = program.statements().len();
    let polite = program.polite();
    match format!(in alloc; "{statements} STATEMENTS, {polite} POLITE\n") {
        Ok(line) => send(line.as_bytes(), 0, Message::Nothing, writer),
        Err(AllocError) => JobEnd::NoMemory,
    }
}
