//! Expressions as trees.

ghost use Rattle.std.specs.Prelude.{◌≡◌, MatchOption};

/// The four kinds of variables (Revised Manual, 3.1 and 3.3).
#[derive(Clone, Copy, Debug, PartialEq, Eq)]
pub enum NameKind {
    /// `.n`, a variable of 16 bits.
    Onespot,
    /// `:n`, a variable of 32 bits.
    Twospot,
    /// `,n`, an array of 16-bit values.
    Tail,
    /// `;n`, an array of 32-bit values.
    Hybrid,
}

/// A variable or an array: its kind, and its number from 1 to 65,535 (Revised Manual, 3.1 and 3.3,
/// after INTERCAL-72).
#[derive(Clone, Copy, Debug)]
pub struct Name {
    pub kind: NameKind,
    pub number: u16,
}

/// The unary operators (Revised Manual, 3.4.2).
#[derive(Clone, Copy, Debug, PartialEq, Eq)]
pub enum UnaryOp {
    /// `&`
    And,
    /// `V`
    Or,
    /// `?`
    Xor,
}

/// The binary operators (Revised Manual, 3.4.1).
#[derive(Clone, Copy, Debug)]
pub enum BinaryOp {
    /// `$`
    Mingle,
    /// `~`
    Select,
}

/// An expression (Revised Manual, 3.4). Groups have no node of their own, and a chain of operators
/// groups from the right (3.4.3).
#[cycle(ast)]
#[derive(Debug, Drop)]
pub enum Expr {
    /// A constant from 0 to 65,535 (3.2).
    Mesh(u16),
    Scalar(Name),
    Element(Element),
    Unary(UnaryOp, Box<Expr>),
    Binary(BinaryOp, Box<Expr>, Box<Expr>),
}

/// An element of an array: its name and its subscripts (Revised Manual, 3.3).
#[cycle(ast)]
#[derive(Debug, Drop)]
pub struct Element {
    pub array: Name,
    pub subs: Vec<Expr>,
}

impl Expr {
    ghost use Rattle.ick_syntax.specs.Tree.{Trees, element, tree_of, trees_in};

    /// Returns the element that the expression consists of, or `None` if it is no element.
    pub fn into_element(self) -> Option<Element>
        ensures { MatchOption result
            ((x : Name) (ts : Trees) → tree_of self ≡ element x ts → ⊥)
            (λ e. tree_of self ≡ element e.array (trees_in e.subs.items)) }
    {
        match self {
            Expr::Element(element) => Some(element),
            _ => None,
        }
    }
}
