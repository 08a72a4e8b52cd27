//! Cuts the texts of weights.

ghost use Rattle.std.specs.Prelude.{◌≡◌, ◌+◌, ◌≤◌, length, IfOk, OnOk};
ghost use Rattle.ick_outcomes.specs.Texts.{IsCutText, IsWeightText, cut_after_fifteen, is_leading};
ghost use Rattle.ick_outcomes.specs.Texts.{leading};

use crate::fraction::Fraction;
use crate::text::Buffers;
use ick_bits::NoMemory;
use std::alloc::Global;

/// Returns whether a character is a zero or the point.
fn is_zero_or_point(character: u8) -> bool
    ensures { result ≡ is_leading character }
{
    character == b'0' || character == b'.'
}

/// Returns how many zeros and points are in front of the first other digit.
#[tactic(auto, using(crate::proofs::CutLaws::leads))]
fn count_leading(text: &[u8]) -> usize
    ensures value { result ≡ leading text.now }
    ensures within { result ≤ length text.now }
{
    for at in 0..text.len() {
        if !is_zero_or_point(text[at]) {
            return at;
        }
    }
    text.len()
}

/// Cuts a text, not rounded, behind 15 digits from the first that isn't 0, with `..` to say so.
#[tactic(auto, using(crate::proofs::CutLaws::cut_short, crate::proofs::CutLaws::cut_long))]
fn cut(text: &mut Vec<u8>) -> Result<(), NoMemory>
    ensures { OnOk result (text.new.items ≡ cut_after_fifteen text.old.items) }
{
    let end = count_leading(text) + 15;
    if text.len() <= end {
        return Ok(());
    }
    text.truncate(end);
    text.extend_from_slice(b"..")?;
    Ok(())
}

/// Writes the decimal text of a weight, exact or cut, in place of that of the last one. It stays if
/// both are equal.
pub(crate) fn renew_weight(
    buffers: &mut Buffers,
    last: &Fraction,
    weight: &Fraction,
    exact: bool,
) -> Result<(), NoMemory>
    requires { IsWeightText exact last.now buffers.old.text.items }
    ensures { OnOk result (IsWeightText exact weight.now buffers.new.text.items) }
{
    if last.places == weight.places && last.top.digits.as_slice() == weight.top.digits.as_slice() {
        return Ok(());
    }
    write_weight(buffers, weight, exact)
}

/// Returns the decimal text of a weight, which is at most 1. The text is cut, not rounded, behind
/// 15 digits from the first that isn't 0, and then ends with `..`. The only refusal is out of
/// memory.
pub fn cut_text(weight: &Fraction, alloc: Global) -> Result<Vec<u8>, NoMemory>
    ensures { IfOk result (λ text. IsCutText weight.now text.items) }
{
    weight_text(weight, false, alloc)
}

/// Writes the decimal text of a weight, exact or cut.
pub(crate) fn write_weight(
    buffers: &mut Buffers,
    weight: &Fraction,
    exact: bool,
) -> Result<(), NoMemory>
    ensures { OnOk result (IsWeightText exact weight.now buffers.new.text.items) }
{
    buffers.write_fraction(weight)?;
    if exact {
        return Ok(());
    }
    cut(&mut buffers.text)
}

/// Returns the decimal text of a weight, exact or cut. The only refusal is out of memory.
pub fn weight_text(weight: &Fraction, exact: bool, alloc: Global) -> Result<Vec<u8>, NoMemory>
    ensures { IfOk result (λ text. IsWeightText exact weight.now text.items) }
{
    let mut buffers = Buffers::new(alloc);
    write_weight(&mut buffers, weight, exact)?;
    Ok(buffers.text)
}
