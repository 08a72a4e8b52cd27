//! The choices that a text has.
ghost use Rattle.std.specs.Prelude.{◌≡◌, IfErr, IfOk, option_map};
ghost use Rattle.ick_job.specs.Choices.{AreChoices, HasChoices, IsUnread};
ghost use Rattle.ick_job.specs.JobEnd.{EndsByLine};

use crate::job_end::JobEnd;
use ick_explorer::Cursor;
use std::alloc::Global;

/// How many choices of a run are read at most (this profile).
pub const MOST_CHOICES: u32 = 1_000_000;

/// Returns the choices that a text has, at most `most`, or nothing if there is no text. Memory is
/// said to be out only if the text has such choices.
pub fn choices_of(alloc: Global, text: Option<&str>, most: u32) -> Result<Option<Cursor>, JobEnd>
    ensures ok { IfOk result (AreChoices (option_map (λ s. s.now) text.entry) most) }
    ensures err { IfErr result (EndsByLine (IsUnread most (option_map (λ s. s.now) text.entry))) }
    ensures memory { IfErr result (λ job_end. job_end ≡ JobEnd.NoMemory
        → HasChoices (option_map (λ s. s.now) text.entry) most) }
{
    let Some(text) = text else {
        return Ok(None);
    };
    match Cursor::from_text(alloc, text.as_bytes(), most) {
        Ok(cursor) => Ok(Some(cursor)),
        Err(error) => Err(JobEnd::refused(error)),
    }
}
