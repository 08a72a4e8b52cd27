//! The output of an answer.
ghost use Rattle.std.specs.Prelude.{◌≡◌, ◌+◌, ◌<◌, ◌≤◌, ◌^◌, true};
ghost use Rattle.ick_job.specs.JobEnd.{Answers, EndsSent, LeavesWriter, message_text};

use crate::job_end::JobEnd;
use crate::notice::Message;
use ick_devices::{ByteSink, write_whole};

/// Writes an output. If all of it was written, the work ends with this status and error text.
pub fn send<W: ByteSink>(output: &[u8], status: u8, message: Message, writer: &mut W) -> JobEnd
    requires sound { W.failed writer.old + 1 < 2 ^ 64 }
    requires known { status ≤ 3 }
    ensures leaves { LeavesWriter result (W.failed writer.old) (W.failed writer.new) }
    ensures sent { EndsSent result }
    ensures answer { W.told ≡ true →
        Answers (record { output = output.now; errors = message_text message; status = status })
        result (W.written writer.old) (W.written writer.new) }
{
    match write_whole(writer, output) {
        Ok(()) => JobEnd::Answered { status, message },
        Err(_) => JobEnd::WriteFailed,
    }
}
