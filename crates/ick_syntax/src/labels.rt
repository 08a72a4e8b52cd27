//! The labels that bodies use.

ghost use Rattle.std.specs.Prelude.{◌≡◌, Option, option_and_then};
ghost use Rattle.ick_syntax.specs.BodyTree.{body_tree_of};
ghost use Rattle.ick_syntax.specs.ProgramFaults.{used_label, fault_of_use};

use crate::body::Body;
use ick_bits::FaultKind;

/// The use that a body makes of a label.
#[derive(Clone, Copy)]
pub enum LabelUse {
    /// Jumps to the statement.
    Next,
    /// Abstains from the statement, or reinstates it.
    Abstain,
}

impl LabelUse {
    /// Returns the fault of such a use if no statement has the label.
    pub fn fault(self) -> FaultKind
        ensures { result ≡ fault_of_use self }
    {
        match self {
            LabelUse::Next => FaultKind::NoNextLabel,
            LabelUse::Abstain => FaultKind::NoAbstainLabel,
        }
    }

    /// Returns the label that a body uses in this way.
    pub fn label(self, body: &Body) -> Option<u16>
        ensures { result ≡ option_and_then (used_label self) (body_tree_of body.now) }
    {
        match (self, body) {
            (LabelUse::Next, Body::Next(label)) => Some(*label),
            (LabelUse::Abstain, Body::AbstainLabel(label)) => Some(*label),
            (LabelUse::Abstain, Body::ReinstateLabel(label)) => Some(*label),
            _ => None,
        }
    }
}
