//! The names that a statement may change.

ghost use Rattle.std.specs.Prelude.{◌≡◌, slice_get};
ghost use Rattle.std.specs.List.{list_any};
ghost use Rattle.ick_code.specs.Compiled.{code_slots};
ghost use Rattle.ick_code.specs.Names.{is_among};
ghost use Rattle.ick_code.specs.meaning.State.{same_name};
ghost use Rattle.ick_session.specs.Targets.{changed_name, is_of_abstaining};
ghost use Rattle.ick_session.specs.Targets.{is_name, names_changed_by, ops_at};
ghost use Rattle.ick_session.specs.Targets.{slot_name};

use ick_code::{Code, Op, SlotName};
use ick_syntax::Name;

/// Returns the scalar of a slot, if there is one.
fn scalar_of(code: &Code<'_>, slot: u32) -> Option<Name>
    ensures { result ≡ slice_get (code_slots code.now).scalars slot }
{
    if slot < code.scalars() {
        return Some(code.scalar(slot));
    }
    None
}

/// Returns the array of a slot, if there is one.
fn array_of(code: &Code<'_>, slot: u32) -> Option<Name>
    ensures { result ≡ slice_get (code_slots code.now).arrays slot }
{
    if slot < code.arrays() {
        return Some(code.array(slot));
    }
    None
}

/// Returns the name of a slot, if there is one.
fn named(code: &Code<'_>, name: SlotName) -> Option<Name>
    ensures { result ≡ slot_name (code_slots code.now) name }
{
    match name {
        SlotName::Scalar(slot) => scalar_of(code, slot),
        SlotName::Array(slot) => array_of(code, slot),
    }
}

/// Returns the name that an operation may change, if it may change one.
pub fn changed_by(code: &Code<'_>, op: Op) -> Option<Name>
    ensures { result ≡ changed_name (code_slots code.now) op }
{
    match op {
        Op::Store(slot) => scalar_of(code, slot),
        Op::ReadTo(slot) => scalar_of(code, slot),
        Op::StoreAt(slot, _) => array_of(code, slot),
        Op::Resize(slot, _) => array_of(code, slot),
        Op::ReadAt(slot, _) => array_of(code, slot),
        Op::ReadArray(slot) => array_of(code, slot),
        Op::Save(name) => named(code, name),
        Op::Restore(name) => named(code, name),
        Op::Hide(name) => named(code, name),
        Op::Show(name) => named(code, name),
        _ => None,
    }
}

/// Returns whether an operation may change which statements are abstained from.
fn abstains(op: Op) -> bool
    ensures { result ≡ is_of_abstaining op }
{
    matches!(
        op,
        Op::AbstainOne(_) | Op::ReinstateOne(_) | Op::AbstainKind(_) | Op::ReinstateKind(_)
    )
}

/// Returns whether one of the operations may change which statements are abstained from.
pub fn may_abstain(ops: &[Op]) -> bool
    ensures { result ≡ list_any is_of_abstaining ops.now }
{
    for op in ops {
        if abstains(*op) {
            return true;
        }
    }
    false
}

/// Returns whether two names are one.
fn is_same(one: Name, other: Name) -> bool
    ensures { result ≡ same_name one other }
{
    one.kind == other.kind && one.number == other.number
}

/// Returns whether an operation may change a name.
fn changes(code: &Code<'_>, op: Op, name: Name) -> bool
    ensures { result ≡ is_name name (changed_name (code_slots code.now) op) }
{
    match changed_by(code, op) {
        Some(other) => is_same(name, other),
        None => false,
    }
}

/// Returns whether one of the operations may change a name.
pub fn is_changed_by(code: &Code<'_>, ops: &[Op], name: Name) -> bool
    ensures { result ≡ is_among name (names_changed_by (code_slots code.now) ops.now) }
{
    for op in ops {
        if changes(code, *op, name) {
            return true;
        }
    }
    false
}

/// Returns the operations of a statement, if there is one of this number, or else none.
pub fn ops_of<'c>(code: &'c Code<'_>, statement: u32) -> &'c [Op]
    ensures { result.now ≡ ops_at code.now statement }
{
    if statement < 1 {
        return &[];
    }
    if code.count() < statement {
        return &[];
    }
    code.ops(statement)
}
