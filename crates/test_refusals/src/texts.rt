//! Calls that append: after a refusal the target is as before, and the same call then appends.

use crate::context::Context;
use crate::failure::{Call, Failure, Wrong};
use crate::fields::{cursor_of, number, program_of};
use ick_bits::{
    Fault, FaultKind, NoMemory, append_decimal, append_message, append_numeral, append_quoted,
};
use ick_machine::Live;
use ick_runs::Cursor;
use ick_source::append_listing;
use ick_syntax::Program;
use test_rows::Row;

/// What is appended.
#[derive(Clone, Copy)]
pub enum Piece<'p, 'c, 'a> {
    Numeral(u32),
    Decimal(u32),
    Quoted(&'p [u8]),
    Message(&'p Fault<'a>),
    Listing(&'p Program<'a>),
    Choices(&'p Cursor),
    End(&'p Live<'c, 'a>),
}

impl Piece<'_, '_, '_> {
    /// Returns the name of the call.
    fn call(&self) -> &'static str {
        match self {
            Piece::Numeral(_) => "append_numeral",
            Piece::Decimal(_) => "append_decimal",
            Piece::Quoted(_) => "append_quoted",
            Piece::Message(_) => "append_message",
            Piece::Listing(_) => "append_listing",
            Piece::Choices(_) => "append_text",
            Piece::End(_) => "append_fault",
        }
    }

    /// Makes the call.
    fn append(&self, out: &mut Vec<u8>) -> Result<(), NoMemory> {
        match self {
            Piece::Numeral(number) => append_numeral(out, *number),
            Piece::Decimal(number) => append_decimal(out, u64::from(*number)),
            Piece::Quoted(text) => append_quoted(out, text),
            Piece::Message(fault) => append_message(out, fault),
            Piece::Listing(program) => append_listing(out, program),
            Piece::Choices(cursor) => cursor.append_text(out),
            Piece::End(live) => live.append_fault(out),
        }
    }
}

/// Appends to a target of two bytes without room, and adds the target to the answer.
pub fn append(context: &mut Context<'_>, piece: &Piece<'_, '_, '_>) -> Result<(), Failure> {
    let Ok(mut target) = Vec::from_slice(context.alloc(), b"AB") else {
        return Err(Failure::Refused(Call::Target));
    };
    if piece.append(&mut target).is_err() {
        if target.as_slice() != b"AB".as_slice() {
            return Err(Failure::Wrong(Wrong::ChangedByRefusal));
        }
        context.tell_refused(piece.call());
        if piece.append(&mut target).is_err() {
            return Err(Failure::Wrong(Wrong::RefusedTwice));
        }
    }
    context.answer.say(target.as_slice());
    Ok(())
}

/// Appends what the call of a row names.
pub fn answer(context: &mut Context<'_>, row: &Row) -> Result<(), Failure> {
    if row.calls(b"append_numeral") {
        append(context, &Piece::Numeral(number(row, b"number", 0)?))
    } else if row.calls(b"append_decimal") {
        append(context, &Piece::Decimal(number(row, b"number", 0)?))
    } else if row.calls(b"append_quoted") {
        append(context, &Piece::Quoted(row.field(b"text")))
    } else if row.calls(b"append_message") {
        message(context, row)
    } else if row.calls(b"append_listing") {
        listing(context, row)
    } else if row.calls(b"append_text") {
        cursor(context, row)
    } else {
        Err(Failure::Wrong(Wrong::NoSuchCall))
    }
}

/// Appends the message of fault 579 of statement 3, whose subject is the row's text.
fn message(context: &mut Context<'_>, row: &Row) -> Result<(), Failure> {
    let fault = Fault {
        kind: FaultKind::NoDigit,
        statement: 3,
        subject: row.field(b"text"),
    };
    append(context, &Piece::Message(&fault))
}

/// Appends the listing of a row's program.
fn listing(context: &mut Context<'_>, row: &Row) -> Result<(), Failure> {
    let program = program_of(context.alloc(), row)?;
    append(context, &Piece::Listing(&program))
}

/// Appends the text of a row's cursor.
fn cursor(context: &mut Context<'_>, row: &Row) -> Result<(), Failure> {
    let cursor = cursor_of(context.alloc(), row)?;
    append(context, &Piece::Choices(&cursor))
}
