//! What a body wants where its reading stops.

ghost use Rattle.std.specs.Prelude.{◌≡◌};
ghost use Rattle.ick_source.specs.Wanted.{closing_mark, wanted_text, wanted_word};

use crate::lead::Delimiter;

/// What a body wants where its reading stops, so what could have been there.
#[derive(Clone, Copy, Debug, PartialEq, Eq)]
pub enum Wanted {
    /// A body. No body begins so.
    Body,
    /// A number.
    Number,
    /// An operand: a variable, an element, a mesh or a group.
    Operand,
    /// A variable or an array.
    Name,
    /// A place that WRITE IN stores into.
    Place,
    /// An item that READ OUT prints.
    Item,
    /// A gerund.
    Gerund,
    /// The spark that closes a group, or an operator.
    Spark,
    /// The rabbit ears that close a group, or an operator.
    Ears,
    /// A left parenthesis.
    Opening,
    /// A right parenthesis.
    Closing,
    /// `<-`
    Arrow,
    /// SUB, after the name of an array.
    Sub,
    /// NEXT, after a label.
    Next,
    /// FROM, after ABSTAIN.
    From,
    /// UP, after GIVE.
    Up,
    /// IN, after WRITE.
    In,
    /// OUT, after READ.
    Out,
    /// Fewer groups within groups, or operators one after another, than 256 (this profile).
    Shallower,
    /// The end of the statement, after a whole body.
    End,
}

/// For each want, in their order, what was expected.
static TEXTS: [&[u8]; 20] = [
    b"a variable, an array, a label or a verb",
    b"a number",
    b"an operand: a variable, an element, a mesh or a group",
    b"a variable or an array",
    b"a variable, an element or an array",
    b"a variable, an element, an array or a mesh",
    b"a gerund",
    b"an operator or the spark that closes the group",
    b"an operator or the rabbit ears that close the group",
    b"a left parenthesis",
    b"a right parenthesis",
    b"<-",
    b"SUB",
    b"NEXT",
    b"FROM",
    b"UP",
    b"IN",
    b"OUT",
    b"at most 256 operands and groups within one another",
    b"the end of the statement",
];

impl Wanted {
    /// Returns what was expected, in words.
    pub fn text(self) -> &'static [u8]
        ensures { result.now ≡ wanted_text self }
    {
        TEXTS[self as usize]
    }

    /// Returns what is wanted where this word is missing.
    pub fn of_word(word: &[u8]) -> Wanted
        ensures { result ≡ wanted_word word.now }
    {
        if word == b"(".as_slice() {
            Wanted::Opening
        } else if word == b")".as_slice() {
            Wanted::Closing
        } else if word == b"<-".as_slice() {
            Wanted::Arrow
        } else if word == b"SUB".as_slice() {
            Wanted::Sub
        } else if word == b"NEXT".as_slice() {
            Wanted::Next
        } else if word == b"FROM".as_slice() {
            Wanted::From
        } else if word == b"UP".as_slice() {
            Wanted::Up
        } else if word == b"IN".as_slice() {
            Wanted::In
        } else if word == b"OUT".as_slice() {
            Wanted::Out
        } else {
            Wanted::Body
        }
    }

    /// Returns what is wanted where the mark is missing that closes a group.
    pub fn of_close(delimiter: Delimiter) -> Wanted
        ensures { result ≡ closing_mark delimiter }
    {
        match delimiter {
            Delimiter::Spark => Wanted::Spark,
            Delimiter::Ears => Wanted::Ears,
        }
    }
}
