//! Marks of the parts of a text.

ghost use Rattle.std.specs.Prelude.{◌≡◌};
ghost use Rattle.ick_places.specs.Marks.{is_operation};

/// What a part of a text is.
///
/// The first eight are the parts from which operations are made, one each.
#[derive(Clone, Copy)]
pub enum Part {
    /// A variable in an expression, or one that is printed.
    Variable,
    Mesh,
    /// An element whose value is read.
    Element,
    /// A variable, a mesh or a group with a unary operator.
    Unary,
    /// Two operands and the operator between them.
    Binary,
    /// A name in the list of a STASH, RETRIEVE, IGNORE or REMEMBER.
    Listed,
    Gerund,
    /// A body, or an item of a WRITE IN or READ OUT: what is done with its operands.
    Action,
    /// The name of a target, or of an array before its subscripts.
    Name,
    /// A label within a body, with its parentheses.
    Label,
    Operator,
    /// A group with both its delimiters.
    Group,
}

impl Part {
    /// Returns whether an operation is made of a part of this kind.
    pub fn is_operation(self) -> bool
        ensures { result ≡ is_operation self }
    {
        match self {
            Part::Variable | Part::Mesh | Part::Element | Part::Unary => true,
            Part::Binary | Part::Listed | Part::Gerund | Part::Action => true,
            Part::Name | Part::Label | Part::Operator | Part::Group => false,
        }
    }
}

/// A part of a text: the bytes from `from` up to `to`. A part that shares the byte of a `!` with
/// another has the whole byte.
#[derive(Clone, Copy)]
pub struct Mark {
    pub part: Part,
    pub from: usize,
    pub to: usize,
}
