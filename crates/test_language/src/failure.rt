//! Why a call failed.

use ick_source::Refusal;

/// Why a call of a row failed before it had an answer.
#[derive(Clone, Copy)]
pub enum Failure {
    /// Out of memory.
    NoMemory,
    /// The source is refused.
    Source(Refusal),
    /// The source has another number of statements than the call wants.
    Statements,
    /// A field is not written as the call wants it.
    Field,
    /// No call has the name that the row gives.
    Call,
}
