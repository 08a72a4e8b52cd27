//! The command line, over devices that fail where a row says so. After a refusal the status is 4, a
//! prefix of the output was written, and the error text is `OUT OF MEMORY`.

use crate::context::Context;
use crate::cut_short::cut_short;
use crate::devices::WornSource;
use crate::failure::{Call, Failure, Wrong};
use crate::shelf::Shelf;
use arrayvec::ArrayVec;
use ick_cli::serve;
use ick_job::{WordsFault, refuse_words};
use test_rows::Row;

/// The most arguments of a row.
const MOST: usize = 8;

/// How many bytes the streams take.
#[derive(Clone, Copy)]
pub struct Rooms {
    pub output: u64,
    pub errors: u64,
}

/// What a call left: its status, how often it opened a file, and how many bytes of the reader.
#[derive(Clone, Copy)]
pub struct Left {
    pub code: u8,
    opened: u64,
    unread: u64,
}

/// Makes the call of a row that is about the command line.
pub fn answer(context: &mut Context<'_>, row: &Row) -> Result<(), Failure> {
    if row.calls(b"serve") {
        whole(context, row)
    } else if row.calls(b"devices") {
        of_devices(context, row)
    } else if row.calls(b"cut short") {
        cut_short(context, row)
    } else if row.calls(b"arguments not text") {
        refused(context, WordsFault::NotText);
        Ok(())
    } else if row.calls(b"arguments out of memory") {
        refused(context, WordsFault::NoMemory);
        Ok(())
    } else {
        Err(Failure::Wrong(Wrong::NoSuchCall))
    }
}

/// Adds the output of `serve` with the arguments of a row, its status and its error text.
fn whole(context: &mut Context<'_>, row: &Row) -> Result<(), Failure> {
    let left = served(context, row, rooms_of(row)?)?;
    say_status(context, left.code);
    Ok(())
}

/// Adds a status and the error text.
pub fn say_status(context: &mut Context<'_>, code: u8) {
    context.answer.say(b"status ");
    context.answer.count(u64::from(code), b"\n");
    context.answer.say(context.errors.bytes());
}

/// Adds how many files `serve` opened with the arguments of a row, and how many bytes of the reader
/// it left.
fn of_devices(context: &mut Context<'_>, row: &Row) -> Result<(), Failure> {
    let left = served(context, row, rooms_of(row)?);
    context.answer.clear();
    let left = left?;
    context.answer.say(b"opened ");
    context.answer.count(left.opened, b", unread ");
    context.answer.count(left.unread, b"");
    Ok(())
}

/// Adds the status and the error text that arguments get which can't be read.
fn refused(context: &mut Context<'_>, fault: WordsFault) {
    context.errors.begin(u64::MAX);
    let status = refuse_words(fault, &mut context.errors);
    say_status(context, status.code());
}

/// Returns how many bytes the streams of a row take.
fn rooms_of(row: &Row) -> Result<Rooms, Failure> {
    Ok(Rooms {
        output: allowed(row, b"room")?,
        errors: allowed(row, b"errorroom")?,
    })
}

/// Returns the number in a field, or the greatest one if the row has no such field.
fn allowed(row: &Row, word: &[u8]) -> Result<u64, Failure> {
    row.number(word, u64::MAX)
        .ok_or(Failure::Wrong(Wrong::NoNumber))
}

/// Calls `serve` with the arguments of a row, over streams with these rooms, and adds the output.
/// The file `f` has the field `source`, and the file `e` is empty.
pub fn served(context: &mut Context<'_>, row: &Row, rooms: Rooms) -> Result<Left, Failure> {
    let mut files = Shelf {
        bytes: row.field(b"source"),
        source: WornSource {
            rest: b"",
            piece: u64::MAX,
            good: allowed(row, b"filereads")?,
            failures: 0,
        },
        opened: 0,
    };
    let mut reader = WornSource {
        rest: row.field(b"input"),
        piece: allowed(row, b"piece")?,
        good: allowed(row, b"reads")?,
        failures: 0,
    };
    context.output.begin(rooms.output);
    context.errors.begin(rooms.errors);
    let status = serve(
        context.alloc(),
        &arguments(row),
        &mut files,
        &mut reader,
        &mut context.output,
        &mut context.errors,
    );
    context.answer.say(context.output.bytes());
    let code = status.code();
    if code == 4 && context.errors.bytes() == b"OUT OF MEMORY\n".as_slice() {
        return Err(Failure::Refused(Call::Serve));
    }
    Ok(Left {
        code,
        opened: files.opened,
        unread: reader.rest.len() as u64,
    })
}

/// Returns the arguments of a row, which blanks part. There are none if they are no text.
fn arguments(row: &Row) -> ArrayVec<&str, MOST> {
    let mut arguments = ArrayVec::new();
    if let Ok(text) = str::from_utf8(row.field(b"arguments")) {
        for argument in text.split_ascii_whitespace() {
            let _ = arguments.try_push(argument);
        }
    }
    arguments
}
