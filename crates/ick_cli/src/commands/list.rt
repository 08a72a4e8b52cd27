//! `ick list`: the statements of a program.
ghost use Rattle.std.specs.Prelude.{◌≡◌, ◌+◌, ◌<◌, ◌^◌, true};
ghost use Rattle.ick_source.specs.Listing.{listing};
ghost use Rattle.ick_syntax.specs.Programs.{trees_of};
ghost use Rattle.ick_job.specs.JobEnd.{Answers, LeavesWriter};
ghost use Rattle.ick_job.specs.Answer.{shown};

use ick_bits::NoMemory;
use ick_devices::ByteSink;
use ick_job::{JobEnd, Message, send};
use ick_source::append_listing;
use ick_syntax::Program;
use std::alloc::Global;

/// Answers a program by the lines of its statements.
pub fn answer_list<W: ByteSink>(alloc: Global, program: &Program<'_>, writer: &mut W) -> JobEnd
    requires { W.failed writer.old + 1 < 2 ^ 64 }
    ensures leaves { LeavesWriter result (W.failed writer.old) (W.failed writer.new) }
    ensures answer { W.told ≡ true → Answers (shown (listing (trees_of program.now)))
        result (W.written writer.old) (W.written writer.new) }
{
    let mut lines = Vec::new(alloc);
    match append_listing(&mut lines, program) {
        Ok(()) => send(&lines, 0, Message::Nothing, writer),
        Err(NoMemory) => JobEnd::NoMemory,
    }
}
