//! A statement of a program.

ghost use Rattle.std.specs.Prelude.{◌≤◌};

use crate::body::Body;

/// A statement of a program (Revised Manual, 4.1 and 4.3, after INTERCAL-72).
#[derive(Debug, Drop)]
pub struct Statement<'a> {
    /// The label, from 1 to 65,535, or `None` (Revised Manual, 4.2).
    pub label: Option<u16>,
    /// Whether the statement says PLEASE (4.3).
    pub polite: bool,
    /// Whether the statement is abstained from when a run starts (4.4.9).
    pub abstained: bool,
    /// The chance, from 0 to 100 percent, that the statement is executed each time it is reached
    /// (this profile).
    pub chance: u8,
    /// The body, which says what executing the statement does.
    pub body: Body,
    /// The bytes of the statement, a slice of the source without white bytes at its ends.
    pub text: &'a [u8],
    /// The number of the statement, counted from 1.
    pub number: u32,
    pub ghost percentage: { chance ≤ 100 },
}
