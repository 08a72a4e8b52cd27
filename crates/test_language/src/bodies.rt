//! Bodies of statements as text.

use crate::expressions::{append_element, append_expression, append_expressions};
use crate::failure::Failure;
use crate::texts::{Text, append_name, append_number, append_shown};
use ick_bits::FaultKind;
use ick_source::{Refusal, read_source};
use ick_syntax::{Body, Expr, Gerund, Item, Name, Place, Program, Statement, Target};
use std::alloc::Global;
use test_rows::Row;

/// Four statements with the labels that bodies name, and the head of a fifth.
const FRONT: &[u8] = b"(1) PLEASE X (5) DO X (6) DO X (7) DO X DO ";

/// Appends a body as text, with the byte where it ends. The answer is `-` if there is no body, and
/// `M`, `N` or `L` if a mesh, a name or a label is out of range.
pub fn body(alloc: Global, row: &Row, out: &mut Text) -> Result<(), Failure> {
    let mut source = Text::new(alloc);
    source.append(FRONT);
    source.append(row.field(b"text"));
    match source.bytes() {
        Ok(source) => append_body(alloc, source, out),
        Err(_) => Err(Failure::NoMemory),
    }
}

/// Appends the body of the fifth statement of a source, or why it is refused.
fn append_body(alloc: Global, source: &[u8], out: &mut Text) -> Result<(), Failure> {
    match read_source(alloc, source) {
        Ok(program) => append_fifth(alloc, &program, out),
        Err(refusal) => append_range(out, refusal),
    }
}

/// Appends the body of the fifth statement of a program.
fn append_fifth(alloc: Global, program: &Program<'_>, out: &mut Text) -> Result<(), Failure> {
    let Some(statement) = program.statements().get(4) else {
        return Err(Failure::Statements);
    };
    append_statement(alloc, out, statement);
    Ok(())
}

/// Appends a letter for the kind of number that is out of range in the fifth statement. Stops if
/// `read_source` refused the source for another reason.
fn append_range(out: &mut Text, refusal: Refusal) -> Result<(), Failure> {
    match refusal {
        Refusal::Fault(FaultKind::MeshTooLarge, 5) => out.push(b'M'),
        Refusal::Fault(FaultKind::NameRange, 5) => out.push(b'N'),
        Refusal::Fault(FaultKind::LabelRange, 5) => out.push(b'L'),
        _ => return Err(Failure::Source(refusal)),
    }
    Ok(())
}

/// Appends the body of a statement whose head is `DO `, and the byte where it ends.
fn append_statement(alloc: Global, out: &mut Text, statement: &Statement<'_>) {
    if matches!(statement.body, Body::Unrecognised) {
        return out.push(b'-');
    }
    append_word(out, &statement.body);
    append_parts(alloc, out, &statement.body);
    append_number(out, b" ", statement.text.len().saturating_sub(3) as u64);
}

/// Appends the word of a body.
fn append_word(out: &mut Text, body: &Body) {
    let word: &[u8] = match body {
        Body::Calculate(_, _) => b"CALCULATE",
        Body::Dimension(_, _) => b"DIMENSION",
        Body::Next(_) => b"NEXT",
        Body::Forget(_) => b"FORGET",
        Body::Resume(_) => b"RESUME",
        Body::Stash(_) => b"STASH",
        Body::Retrieve(_) => b"RETRIEVE",
        Body::Ignore(_) => b"IGNORE",
        Body::Remember(_) => b"REMEMBER",
        Body::AbstainLabel(_) | Body::AbstainKinds(_) => b"ABSTAIN",
        Body::ReinstateLabel(_) | Body::ReinstateKinds(_) => b"REINSTATE",
        Body::GiveUp => b"GIVE UP",
        Body::WriteIn(_) => b"WRITE IN",
        Body::ReadOut(_) => b"READ OUT",
        Body::Unrecognised => b"UNRECOGNISED",
    };
    out.append(word);
}

/// Appends the parts of a body with a space before each.
fn append_parts(alloc: Global, out: &mut Text, body: &Body) {
    match body {
        Body::Calculate(target, value) => append_calculate(out, target, value),
        Body::Dimension(array, dimensions) => {
            append_name(out, b" ", array);
            append_expressions(out, dimensions.as_slice());
        }
        Body::Forget(value) | Body::Resume(value) => append_expression(out, value),
        Body::Next(label) | Body::AbstainLabel(label) | Body::ReinstateLabel(label) => {
            append_number(out, b" (", u64::from(*label));
            out.push(b')');
        }
        Body::Stash(names) | Body::Retrieve(names) | Body::Ignore(names) | Body::Remember(names) =>
            { append_names(out, names.as_slice()) }
        Body::AbstainKinds(gerunds) | Body::ReinstateKinds(gerunds) => {
            append_gerunds(alloc, out, gerunds.as_slice())
        }
        Body::WriteIn(places) => append_places(out, places.as_slice()),
        Body::ReadOut(items) => append_items(out, items.as_slice()),
        Body::GiveUp | Body::Unrecognised => {}
    }
}

/// Appends the target and the value of a calculation.
fn append_calculate(out: &mut Text, target: &Target, value: &Expr) {
    match target {
        Target::Scalar(name) => append_name(out, b" ", name),
        Target::Element(element) => append_element(out, element),
    }
    append_expression(out, value);
}

/// Appends names with a space before each.
fn append_names(out: &mut Text, names: &[Name]) {
    for name in names {
        append_name(out, b" ", name);
    }
}

/// Appends gerunds with a space before each.
fn append_gerunds(alloc: Global, out: &mut Text, gerunds: &[Gerund]) {
    for gerund in gerunds {
        append_shown(alloc, out, b" ", gerund);
    }
}

/// Appends the places of WRITE IN with a space before each.
fn append_places(out: &mut Text, places: &[Place]) {
    for place in places {
        match place {
            Place::Scalar(name) | Place::Array(name) => append_name(out, b" ", name),
            Place::Element(element) => append_element(out, element),
        }
    }
}

/// Appends the items of READ OUT with a space before each.
fn append_items(out: &mut Text, items: &[Item]) {
    for item in items {
        match item {
            Item::Scalar(name) | Item::Array(name) => append_name(out, b" ", name),
            Item::Element(element) => append_element(out, element),
            Item::Mesh(number) => append_number(out, b" #", u64::from(*number)),
        }
    }
}
