//! The lines of the faults for which a source is refused.

ghost use Rattle.std.specs.Prelude.{◌≡◌, ◌≤◌, ◌+◌, ◌-◌, ◌*◌, ◌++◌, codes, false, min, true};
ghost use Rattle.ick_inspect.specs.Text.{Adds};
ghost use Rattle.ick_source.specs.Token.{cap, is_digit};
ghost use Rattle.ick_stages.specs.Faults.{fault_line, fault_numbers, faulty_in, last_line};
ghost use Rattle.ick_stages.specs.Faults.{faulty_part as whole_part, is_faulty as faulty};
ghost use Rattle.ick_stages.specs.Faults.{is_label_faulty as label_faulty, is_name as names};
ghost use Rattle.ick_stages.specs.Faults.{is_outside as outside, label_of as own, own_label};
ghost use Rattle.ick_stages.specs.Faults.{number_of as number, span_of as bytes_of};

use crate::parts::append_bytes;
use ick_bits::FaultKind;
use ick_inspect::Text;
use ick_places::{Head, Mark, Part, Places, Span};
use ick_source::FaultAt;
use ick_source::bytes::{byte_at, is_digit_byte, with_digit};

/// Appends a byte to a number if it is a digit, and caps the result.
fn with_byte(number: u32, byte: u8) -> u32
    requires { number ≤ cap }
    ensures digit { is_digit byte ≡ true → result ≡ min (number * 10 + (byte - 48)) cap }
    ensures other { is_digit byte ≡ false → result ≡ number }
{
    if !is_digit_byte(byte) {
        return number;
    }
    with_digit(number, byte)
}

/// Returns the number that the digits among these bytes write, or 65,536 if it is greater.
fn number_of(source: &[u8], span: Span) -> u32
    ensures { result ≡ min (number source.now span) cap }
{
    let mut number = 0u32;
    for at in span.from..span.to {
        number = with_byte(number, byte_at(source, at));
    }
    number
}

/// Returns the bytes of a part.
fn span_of(mark: Mark) -> Span
    ensures { result ≡ bytes_of mark }
{
    Span {
        from: mark.from,
        to: mark.to,
    }
}

/// Returns whether a number is outside 1 to 65,535.
fn is_outside(number: u32) -> bool
    ensures { result ≡ outside number }
{
    number == 0 || number > 65_535
}

/// Returns whether a part is a name, with a number and nothing more.
fn is_name(source: &[u8], mark: Mark) -> bool
    ensures { result ≡ names source.now mark mark.part }
{
    match mark.part {
        Part::Variable | Part::Listed | Part::Name => true,
        Part::Action => byte_at(source, mark.from) == b',',
        _ => false,
    }
}

/// Returns whether a part of a body has a fault of this kind, by its number.
fn is_faulty(source: &[u8], kind: FaultKind, mark: Mark) -> bool
    ensures { result ≡ faulty source.now kind mark }
{
    let number = number_of(source, span_of(mark));
    match (kind, mark.part) {
        (FaultKind::MeshTooLarge, Part::Mesh) => number > 65_535,
        (FaultKind::NameRange, _) => is_name(source, mark) && is_outside(number),
        (FaultKind::LabelRange, Part::Label) => is_outside(number),
        (FaultKind::NoNextLabel, Part::Label) => true,
        (FaultKind::NoAbstainLabel, Part::Label) => true,
        _ => false,
    }
}

/// Returns the first part of a body that has a fault of this kind.
fn part_of(source: &[u8], kind: FaultKind, marks: &[Mark]) -> Option<Span>
    ensures { result ≡ faulty_in source.now kind marks.now }
{
    for mark in marks {
        if is_faulty(source, kind, *mark) {
            return Some(span_of(*mark));
        }
    }
    None
}

/// Returns whether a statement's own label has a fault of this kind, if the statement has one.
fn is_label_faulty(source: &[u8], kind: FaultKind, label: Span) -> bool
    ensures { result ≡ label_faulty source.now kind label }
{
    match kind {
        FaultKind::SameLabel => true,
        FaultKind::LabelRange => is_outside(number_of(source, label)),
        _ => false,
    }
}

/// Returns a statement's own label, if the label has a fault of this kind.
fn label_of(source: &[u8], kind: FaultKind, head: &Option<Head>) -> Option<Span>
    ensures { result ≡ own source.now kind (own_label head.now) }
{
    match head {
        None => None,
        Some(head) => match head.label {
            None => None,
            Some(label) => {
                if is_label_faulty(source, kind, label) {
                    Some(label)
                } else {
                    None
                }
            }
        },
    }
}

/// Returns the part of a statement that has a fault of this kind, which the statement has: its own
/// label, or the first such part of its body, or else the whole.
fn faulty_part(source: &[u8], kind: FaultKind, places: &Places) -> Span
    ensures { result ≡ whole_part source.now kind places.now }
{
    match label_of(source, kind, &places.head) {
        Some(label) => label,
        None => match part_of(source, kind, &places.marks) {
            Some(part) => part,
            None => Span {
                from: places.from,
                to: places.to,
            },
        },
    }
}

/// Appends the number of a fault and that of its statement: `129 3`.
#[tactic(auto, unfolding(crate::specs::Faults::fault_numbers))]
fn append_numbers(text: &mut Text, fault: FaultAt)
    ensures { Adds text.old text.new (fault_numbers fault) }
{
    text.push_decimal(u64::from(fault.kind.number()));
    text.push(b" ");
    text.push_decimal(u64::from(fault.number));
}

/// Appends the line of a fault of a statement: `refused 129 3 11-14`, with the bytes of the part
/// that has it, counted from the statement's first byte.
#[tactic(auto, unfolding(crate::specs::Faults::fault_line))]
pub fn append_fault(text: &mut Text, source: &[u8], fault: FaultAt, places: &Places)
    ensures { Adds text.old text.new (fault_line source.now fault places.now) }
{
    let part = faulty_part(source, fault.kind, places);
    text.push(b"refused ");
    append_numbers(text, fault);
    text.push(b" ");
    append_bytes(text, places.from, part.from, part.to);
    text.push(b"\n");
}

/// Appends `REFUSED` with the first fault.
fn append_refused(text: &mut Text, fault: FaultAt)
    ensures { Adds text.old text.new
        (codes "REFUSED " ++ fault_numbers fault ++ codes "\n") }
{
    text.push(b"REFUSED ");
    append_numbers(text, fault);
    text.push(b"\n");
}

/// Appends the last line of a source that has these faults: `DONE` if there are none, else
/// `REFUSED 129 3` with the first of them.
pub fn append_last(text: &mut Text, faults: &[FaultAt])
    ensures { Adds text.old text.new (last_line faults.now) }
{
    match faults.first() {
        None => text.push(b"DONE\n"),
        Some(first) => append_refused(text, *first),
    }
}
