//! Both machines with marks.

ghost use Rattle.std.specs.Prelude.{◌≡◌, []};

use crate::context::Context;
use crate::explorers::explore;
use crate::failure::{Call, Failure};
use crate::fields::code_of;
use crate::scripts::follow;
use ick_code::Code;
use ick_machine::{Asks, Copied, Trailed};
use test_rows::Row;

/// Makes the call of a row on both machines, one after the other.
pub fn answer(context: &mut Context<'_>, row: &Row) -> Result<(), Failure> {
    let code = code_of(context.alloc(), row)?;
    on_copied(context, row, &code)?;
    on_trailed(context, row, &code)
}

/// Makes the call of a row on a machine that copies its state.
fn on_copied(context: &mut Context<'_>, row: &Row, code: &Code<'_>) -> Result<(), Failure> {
    match Copied::new(context.alloc(), code, row.field(b"input"), 0) {
        Ok(machine) => on_machine(context, row, machine, "Copied"),
        Err(_) => Err(Failure::Refused(Call::NewCopied)),
    }
}

/// Makes the call of a row on a machine that logs its changes.
fn on_trailed(context: &mut Context<'_>, row: &Row, code: &Code<'_>) -> Result<(), Failure> {
    match Trailed::new(context.alloc(), code, row.field(b"input"), 0) {
        Ok(machine) => on_machine(context, row, machine, "Trailed"),
        Err(_) => Err(Failure::Refused(Call::NewTrailed)),
    }
}

/// Makes the call of a row on a machine.
fn on_machine<'c, M: Asks<'c>>(
    context: &mut Context<'_>,
    row: &Row,
    machine: M,
    name: &str,
) -> Result<(), Failure>
    requires { (M.seen machine).marks ≡ [] }
{
    if !row.calls(b"script") {
        return explore(context, row, machine);
    }
    let mut machine = machine;
    follow(context, &mut machine, name, row.field(b"script"))
}
