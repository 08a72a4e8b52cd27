//! How the work ends, before its error text is written.
ghost use Rattle.std.specs.Prelude.{◌≡◌};
ghost use Rattle.ick_job.specs.JobEnd.{Comes, job_end_status, job_end_text, refused_job_end};

use crate::notice::{Message, Notice};
use ick_explorer::RunsError;

/// How the work ends: with an answer, or because memory or a device failed.
#[derive(Drop)]
pub enum JobEnd {
    Answered { status: u8, message: Message },
    NoMemory,
    InputTooLong,
    FileNotRead,
    ReadFailed,
    WriteFailed,
}

impl JobEnd {
    /// Returns the job's end by a line, with the status of usage.
    pub fn usage(line: Notice) -> JobEnd
        ensures { result ≡ JobEnd.Answered 64 (Message.Notice line) }
    {
        JobEnd::Answered {
            status: 64,
            message: Message::Notice(line),
        }
    }

    /// Returns the end of a job that a call of the explorer or of a run refused. Only here does an
    /// error become a line and a status. `WorkFull` and `Failed` never come: each count of work
    /// begins at 0, and a failed explorer is never used again.
    pub fn refused(error: RunsError) -> JobEnd
        requires { Comes error }
        ensures { result ≡ refused_job_end error }
    {
        match error {
            RunsError::NoMemory => JobEnd::NoMemory,
            RunsError::NoSuchRun => JobEnd::usage(Notice::NoSuchRun),
            RunsError::WorkFull => unreachable!(),
            RunsError::Failed => unreachable!(),
            RunsError::BadCursor => JobEnd::usage(Notice::BadCursor),
            RunsError::Read => JobEnd::ReadFailed,
            RunsError::Write => JobEnd::WriteFailed,
        }
    }

    /// Returns the exit status.
    pub fn status(&self) -> u8
        ensures { result ≡ job_end_status self.now }
    {
        match self {
            JobEnd::Answered { status, .. } => *status,
            _ => 4,
        }
    }

    /// Returns the error text.
    pub fn text(&self) -> &[u8]
        ensures { result.now ≡ job_end_text self.now }
    {
        match self {
            JobEnd::Answered { message, .. } => match message {
                Message::Nothing => &[],
                Message::Notice(notice) => notice.text(),
                Message::Text(text) => text.as_slice(),
            },
            JobEnd::NoMemory => Notice::OutOfMemory.text(),
            JobEnd::InputTooLong => Notice::InputTooLong.text(),
            JobEnd::FileNotRead => Notice::FileNotRead.text(),
            JobEnd::ReadFailed => Notice::ReadFailed.text(),
            JobEnd::WriteFailed => Notice::WriteFailed.text(),
        }
    }
}
