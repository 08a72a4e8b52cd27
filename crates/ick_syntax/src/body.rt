//! Bodies of statements.

ghost use Rattle.std.specs.Prelude.{◌≡◌, MatchOption, None, Some};
ghost use Rattle.ick_syntax.specs.Gerund.{gerund_word, second_word};

use crate::tree::{Element, Expr, Name};

/// The target of a calculation: a variable or an element of an array (Revised Manual, 4.4.1).
#[derive(Debug, Drop)]
pub enum Target {
    Scalar(Name),
    Element(Element),
}

/// A place that WRITE IN stores into: a variable, an element of an array (Revised Manual, 4.4.12),
/// or a whole array, whose name is a tail's (5.2).
#[derive(Debug, Drop)]
pub enum Place {
    Scalar(Name),
    Element(Element),
    Array(Name),
}

/// An item that READ OUT prints: a variable, an element of an array, a mesh (Revised Manual,
/// 4.4.13), or a whole array, whose name is a tail's (5.2).
#[derive(Debug, Drop)]
pub enum Item {
    Scalar(Name),
    Element(Element),
    Mesh(u16),
    Array(Name),
}

/// A gerund, by which ABSTAIN and REINSTATE name statements of one kind (Revised Manual, 4.4.9).
#[derive(Clone, Copy, Debug)]
pub enum Gerund {
    /// Names calculations and dimensionings.
    Calculating,
    Nexting,
    Forgetting,
    Resuming,
    Stashing,
    Retrieving,
    Ignoring,
    Remembering,
    /// Names ABSTAIN from labels and from gerunds.
    Abstaining,
    /// Names REINSTATE of labels and of gerunds.
    Reinstating,
    WritingIn,
    ReadingOut,
}

/// For each gerund, in their order, its word, or the first of its two words.
static WORDS: [&[u8]; 12] = [
    b"CALCULATING",
    b"NEXTING",
    b"FORGETTING",
    b"RESUMING",
    b"STASHING",
    b"RETRIEVING",
    b"IGNORING",
    b"REMEMBERING",
    b"ABSTAINING",
    b"REINSTATING",
    b"WRITING",
    b"READING",
];

impl Gerund {
    /// Lists all gerunds, each once.
    pub const ALL: [Gerund; 12] = [
        Gerund::Calculating,
        Gerund::Nexting,
        Gerund::Forgetting,
        Gerund::Resuming,
        Gerund::Stashing,
        Gerund::Retrieving,
        Gerund::Ignoring,
        Gerund::Remembering,
        Gerund::Abstaining,
        Gerund::Reinstating,
        Gerund::WritingIn,
        Gerund::ReadingOut,
    ];

    /// Returns the gerund's word, or the first of its two words, in capitals.
    pub fn word(self) -> &'static [u8]
        ensures { result.now ≡ gerund_word self }
    {
        WORDS[self as usize]
    }

    /// Returns the second of the gerund's two words, or `None` if it has one word.
    pub fn second_word(self) -> Option<&'static [u8]>
        ensures { MatchOption result
            (second_word self ≡ None) (λ word. second_word self ≡ Some word.now) }
    {
        match self {
            Gerund::WritingIn => Some(b"IN"),
            Gerund::ReadingOut => Some(b"OUT"),
            _ => None,
        }
    }
}

/// The body of a statement (Revised Manual, the sections named below, after INTERCAL-72).
#[derive(Debug, Drop)]
pub enum Body {
    /// Stores the value of an expression in a target (4.4.1).
    Calculate(Target, Expr),
    /// Gives an array its dimensions (4.4.1).
    Dimension(Name, Vec<Expr>),
    /// Pushes the return address and jumps to the statement with this label (4.4.2).
    Next(u16),
    /// Drops as many entries of the NEXT stack as the expression says (4.4.3).
    Forget(Expr),
    /// Pops as many entries of the NEXT stack as the expression says, and jumps to the last one
    /// popped (4.4.4).
    Resume(Expr),
    /// Pushes the values of these variables on their stashes (4.4.5).
    Stash(Vec<Name>),
    /// Pops the values of these variables off their stashes (4.4.6).
    Retrieve(Vec<Name>),
    /// Makes these variables read-only (4.4.7).
    Ignore(Vec<Name>),
    /// Makes these variables writable again (4.4.8).
    Remember(Vec<Name>),
    /// Abstains from the statement with this label (4.4.9).
    AbstainLabel(u16),
    /// Abstains from all statements of these kinds (4.4.9).
    AbstainKinds(Vec<Gerund>),
    /// Reinstates the statement with this label (4.4.10).
    ReinstateLabel(u16),
    /// Reinstates all statements of these kinds (4.4.10).
    ReinstateKinds(Vec<Gerund>),
    /// Ends the run (4.4.11).
    GiveUp,
    /// Reads a value for each of these places (4.4.12, 5.2).
    WriteIn(Vec<Place>),
    /// Prints each of these items (4.4.13, 5.2).
    ReadOut(Vec<Item>),
    /// Has none of the other forms. The reader keeps the statement, which is a fault only when it
    /// is executed (4.5).
    Unrecognised,
}
