//! How work ends whose source is refused.
ghost use Rattle.ick_job.specs.Refusing.{EndsRefused};

use crate::job_end::JobEnd;
use crate::notice::{Message, Notice};
use ick_bits::{Fault, NoMemory, append_message};
use ick_source::Refusal;
use std::alloc::Global;

/// Returns how work ends whose source is refused.
pub fn refused(alloc: Global, refusal: Refusal) -> JobEnd
    ensures { EndsRefused refusal result }
{
    match refusal {
        Refusal::Fault(kind, statement) => {
            let fault = Fault {
                kind,
                statement,
                subject: &[],
            };
            let mut text = Vec::new(alloc);
            match append_message(&mut text, &fault) {
                Ok(()) => JobEnd::Answered {
                    status: 2,
                    message: Message::Text(text),
                },
                Err(NoMemory) => JobEnd::NoMemory,
            }
        }
        Refusal::TooLong => JobEnd::Answered {
            status: 2,
            message: Message::Notice(Notice::SourceTooLong),
        },
        Refusal::NoMemory => JobEnd::NoMemory,
    }
}
