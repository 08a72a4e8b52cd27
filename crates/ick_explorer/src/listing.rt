//! Tells whether a listing goes on.

/// Tells the last line of a listing.
#[derive(Clone, Copy, Debug)]
pub enum Listed2 {
    /// Tells, by the line `MORE`, that a further run exists.
    More,
    /// Tells, by the line `DONE`, that all runs were listed.
    Done,
}
