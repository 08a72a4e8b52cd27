//! What a machine asks before a step, and how a run ends.

use ick_bits::Fault;

/// How a run ends.
#[derive(Clone, Copy, Debug)]
pub enum End<'c> {
    /// GIVE UP was done (Revised Manual, 4.4.11).
    GiveUp,
    /// A statement couldn't be done, or the program went past its last statement.
    Fault(Fault<'c>),
    /// The limit on steps was reached (this profile). A machine knows no limit and never answers
    /// this.
    Limit,
}

/// What a machine asks before a step.
#[derive(Clone, Copy, Debug)]
pub enum Ask<'c> {
    /// Nothing: there is one way to go on.
    Plain,
    /// Whether a statement is done that has this chance in hundredths, from 1 to 99, and isn't
    /// abstained from (Revised Manual, 4.3).
    Choice(u8),
    /// Nothing more: the run has ended. The end is never `Limit`.
    Ended(End<'c>),
}
