//! Listings of programs, over both machines.

use crate::explorers::{Start, by_copied, by_trailed};
use crate::failure::Failure;
use crate::fields::{short_number, start_of};
use crate::tasks::Task;
use crate::texts::append_failure;
use ick_code::Code;
use ick_devices::VecSink;
use ick_machine::Asks;
use ick_runs::{Explorer, write_runs};
use std::alloc::Global;
use test_rows::Row;

/// Appends what is listed of a row's program, or the counts of its listing, over both machines. If
/// the machines differ, both answers are appended.
pub fn runs(alloc: Global, code: &Code<'_>, row: &Row, out: &mut Vec<u8>) -> Result<(), Failure> {
    let start = start_of(row)?;
    let task = task_of(row)?;
    let copied = by_copied(alloc, code, &start, &task, out);
    answer(alloc, out, copied)?;
    compare_trailed(alloc, code, &start, &task, out)
}

/// Returns what a row does with an explorer.
fn task_of(row: &Row) -> Result<Task<'_>, Failure> {
    if row.calls(b"counts") {
        Ok(Task::Count)
    } else {
        Ok(Task::List(short_number(row, b"count", 1000)?))
    }
}

/// Appends the answer of the machine that notes its changes, if it is not the same.
fn compare_trailed(
    alloc: Global,
    code: &Code<'_>,
    start: &Start<'_>,
    task: &Task<'_>,
    out: &mut Vec<u8>,
) -> Result<(), Failure> {
    let mut other = Vec::new(alloc);
    let trailed = by_trailed(alloc, code, start, task, &mut other);
    answer(alloc, &mut other, trailed)?;
    append_other(out, &other)
}

/// Replaces an answer by why its task stopped, if it did.
fn answer(alloc: Global, out: &mut Vec<u8>, done: Result<bool, Failure>) -> Result<(), Failure> {
    if let Err(failure) = done {
        out.clear();
        append_failure(alloc, out, failure)?;
    }
    Ok(())
}

/// Appends another answer, if it is not the same.
fn append_other(out: &mut Vec<u8>, other: &[u8]) -> Result<(), Failure> {
    if out.as_slice() != other {
        out.extend_from_slice(b" trailed: ")?;
        out.extend_from_slice(other)?;
    }
    Ok(())
}

/// Appends what is listed from the place of an explorer.
pub fn append_listing<'c, M: Asks<'c>>(
    alloc: Global,
    out: &mut Vec<u8>,
    explorer: &mut Explorer<M>,
    count: u32,
) -> Result<(), Failure> {
    let mut sink = VecSink::new(alloc);
    write_runs(alloc, explorer, count, &mut sink)?;
    Ok(out.extend_from_slice(sink.bytes())?)
}
