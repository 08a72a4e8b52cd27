//! Decides which faults the statements of a text have.

ghost use Rattle.std.specs.Prelude.{◌≡◌, ◌+◌, ◌<◌, ◌/◌, ◌≤◌, ◌↔◌, ℕ, IfOk, IsTrue, List, Some};
ghost use Rattle.std.specs.Prelude.{None};
ghost use Rattle.std.specs.Prelude.{length, option_and_then, slice_get};
ghost use Rattle.ick_bits.specs.declared.faults.FaultKind.TheVariants.{SameLabel};
ghost use Rattle.ick_source.specs.Seen.{Sees, SeesAll};
ghost use Rattle.ick_source.specs.Surveys.{Any, AreFirstLabels, Surveys, Tells, number_at};
ghost use Rattle.ick_syntax.specs.ProgramFaults.{IsFaultAt, IsLostAt, IsSameLabelAt};
ghost use Rattle.ick_syntax.specs.StatementTree.{StatementTree, most_statements, polite_in};

use crate::seen::Seen;
use ick_bits::FaultKind;
use ick_syntax::LabelUse;
use std::alloc::{AllocError, Global};
use std::collections::BTreeMap;

/// The statements of a text, the number of the first statement that has each label, and how many
/// statements say PLEASE.
#[derive(Drop)]
pub struct Survey<'s, 'a> {
    pub seen: &'s [Seen<'a>],
    labels: BTreeMap<&'a [u8], u32>,
    polite: u32,
}

impl<'s, 'a> Survey<'s, 'a> {
    /// Surveys the statements.
    pub fn of(alloc: Global, seen: &'s [Seen<'a>]) -> Result<Survey<'s, 'a>, AllocError>
        requires { length seen.now ≤ most_statements }
        ensures surveys { IfOk result (λ x. (trees : List StatementTree) →
            SeesAll seen.now trees → Surveys x trees) }
        ensures seen { IfOk result (λ x. x.seen ≡ seen.entry) }
    {
        let labels = first_labels(alloc, seen)?;
        let polite = polite_in(seen);
        Ok(Survey {
            seen,
            labels,
            polite,
        })
    }

    /// Returns whether this statement has a fault of this kind.
    pub fn has(&self, kind: FaultKind, one: &Seen<'a>) -> bool
        requires { length self.now.seen.now ≤ most_statements }
        ensures { (trees : List StatementTree) (k : ℕ) → Surveys self.now trees →
            slice_get self.now.seen.now k ≡ Some one.now →
            Tells result (IsFaultAt kind trees (k + 1)) }
    {
        let number = one.statement.number;
        let count = self.seen.len() as u32;
        match kind {
            FaultKind::MeshTooLarge => one.faults.mesh,
            FaultKind::NameRange => one.faults.name,
            FaultKind::LabelRange => one.faults.label,
            FaultKind::SameLabel => self.is_again(one),
            FaultKind::NoNextLabel => self.is_lost(LabelUse::Next, one),
            FaultKind::NoAbstainLabel => self.is_lost(LabelUse::Abstain, one),
            FaultKind::Impolite => is_last(number, count) && self.polite < count / 5,
            FaultKind::Fawning => is_last(number, count) && self.polite > count / 3,
            _ => false,
        }
    }

    /// Returns whether an earlier statement has the label of this one.
    fn is_again(&self, one: &Seen<'a>) -> bool
        ensures { (trees : List StatementTree) (k : ℕ) → Surveys self.now trees →
            slice_get self.now.seen.now k ≡ Some one.now →
            Tells result (IsSameLabelAt trees (k + 1)) }
    {
        let Some(label) = one.label else {
            return false;
        };
        match self.first(label) {
            Some(first) => first < one.statement.number,
            None => false,
        }
    }

    /// Returns whether this statement uses a label in this way that no statement has.
    fn is_lost(&self, how: LabelUse, one: &Seen<'a>) -> bool
        ensures { (trees : List StatementTree) (k : ℕ) → Surveys self.now trees →
            slice_get self.now.seen.now k ≡ Some one.now →
            Tells result (IsLostAt how trees (k + 1)) }
    {
        if how.label(&one.statement.body).is_none() {
            return false;
        }
        match one.used {
            Some(label) => self.first(label).is_none(),
            None => false,
        }
    }

    /// Returns the number of the first statement that has a label with these significant digits.
    fn first(&self, label: &'a [u8]) -> Option<u32>
        ensures { result ≡ number_at self.now.labels label.now }
    {
        self.labels.get(label).copied()
    }
}

/// Returns whether the number is that of the last statement, of at least three.
fn is_last(number: u32, count: u32) -> bool
    ensures { IsTrue result ↔ ((number ≡ count) × (3 ≤ number)) }
{
    number == count && number >= 3
}

/// Returns, for the significant digits of each label of a statement, the number of the first
/// statement that has the label.
fn first_labels<'a>(alloc: Global, seen: &[Seen<'a>]) -> Result<BTreeMap<&'a [u8], u32>, AllocError>
    ensures { IfOk result (λ labels. (trees : List StatementTree) → SeesAll seen.now trees →
        AreFirstLabels Any trees labels) }
{
    let mut labels = BTreeMap::new(alloc);
    for one in seen {
        if let Some(label) = one.label {
            if !labels.contains_key(label) {
                labels.insert(label, one.statement.number)?;
            }
        }
    }
    Ok(labels)
}

/// Returns how many of the statements say PLEASE.
fn polite_in(seen: &[Seen<'_>]) -> u32
    requires { length seen.now ≤ most_statements }
    ensures { (trees : List StatementTree) → SeesAll seen.now trees → result ≡ polite_in trees }
{
    let mut polite = 0u32;
    for one in seen {
        if one.statement.polite {
            polite += 1;
        }
    }
    polite
}
