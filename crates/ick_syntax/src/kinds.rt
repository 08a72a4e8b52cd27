//! The kinds of statements, which their bodies decide.

ghost use Rattle.std.specs.Prelude.{◌≡◌};
ghost use Rattle.ick_syntax.specs.BodyTree.{body_tree_of};
ghost use Rattle.ick_syntax.specs.Kinds.{kind_of, kind_word, named_kind};

use crate::body::{Body, Gerund};

/// The kind of a statement (Revised Manual, 4.4).
#[derive(Clone, Copy, Debug)]
pub enum Kind {
    /// Stores a value, or gives an array its dimensions.
    Calculate,
    Next,
    Forget,
    Resume,
    Stash,
    Retrieve,
    Ignore,
    Remember,
    Abstain,
    Reinstate,
    GiveUp,
    WriteIn,
    ReadOut,
    Unrecognised,
}

/// The words for the kinds in a listing of statements, in the order of the kinds.
static WORDS: [&[u8]; 14] = [
    b"CALCULATE",
    b"NEXT",
    b"FORGET",
    b"RESUME",
    b"STASH",
    b"RETRIEVE",
    b"IGNORE",
    b"REMEMBER",
    b"ABSTAIN",
    b"REINSTATE",
    b"GIVE-UP",
    b"WRITE-IN",
    b"READ-OUT",
    b"UNRECOGNISED",
];

impl Kind {
    /// Returns the word for the kind in a listing of statements (this profile).
    pub fn word(self) -> &'static [u8]
        ensures { result.now ≡ kind_word self }
    {
        WORDS[self as usize]
    }
}

impl Body {
    /// Returns the kind of a statement with this body.
    pub fn kind(&self) -> Kind
        ensures { result ≡ kind_of (body_tree_of self.now) }
    {
        match self {
            Body::Calculate(_, _) => Kind::Calculate,
            Body::Dimension(_, _) => Kind::Calculate,
            Body::Next(_) => Kind::Next,
            Body::Forget(_) => Kind::Forget,
            Body::Resume(_) => Kind::Resume,
            Body::Stash(_) => Kind::Stash,
            Body::Retrieve(_) => Kind::Retrieve,
            Body::Ignore(_) => Kind::Ignore,
            Body::Remember(_) => Kind::Remember,
            Body::AbstainLabel(_) => Kind::Abstain,
            Body::AbstainKinds(_) => Kind::Abstain,
            Body::ReinstateLabel(_) => Kind::Reinstate,
            Body::ReinstateKinds(_) => Kind::Reinstate,
            Body::GiveUp => Kind::GiveUp,
            Body::WriteIn(_) => Kind::WriteIn,
            Body::ReadOut(_) => Kind::ReadOut,
            Body::Unrecognised => Kind::Unrecognised,
        }
    }
}

impl Gerund {
    /// Returns the kind of the statements that the gerund names (Revised Manual, 4.4.9).
    pub fn kind(self) -> Kind
        ensures { result ≡ named_kind self }
    {
        match self {
            Gerund::Calculating => Kind::Calculate,
            Gerund::Nexting => Kind::Next,
            Gerund::Forgetting => Kind::Forget,
            Gerund::Resuming => Kind::Resume,
            Gerund::Stashing => Kind::Stash,
            Gerund::Retrieving => Kind::Retrieve,
            Gerund::Ignoring => Kind::Ignore,
            Gerund::Remembering => Kind::Remember,
            Gerund::Abstaining => Kind::Abstain,
            Gerund::Reinstating => Kind::Reinstate,
            Gerund::WritingIn => Kind::WriteIn,
            Gerund::ReadingOut => Kind::ReadOut,
        }
    }
}
