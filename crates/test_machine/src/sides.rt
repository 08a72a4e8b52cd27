//! Two machines with marks side by side. They must be alike after each call.

use crate::alike::are_alike;
use crate::failure::Failure;
use crate::machines::{back, drop_mark, goes_on, mark, run, step};
use ick_code::Code;
use ick_machine::{Ask, Asks, Copied, Trailed};
use std::alloc::Global;

/// Two machines on one program.
#[derive(Drop)]
pub struct Sides<A, B> {
    pub one: A,
    pub other: B,
}

/// Makes two machines at the start of a program, whose counts of work begin at `work`. The one
/// notes its changes, and the other copies what it marks.
pub fn sides_of<'c, 'a>(
    alloc: Global,
    code: &'c Code<'a>,
    input: &'c [u8],
    work: u64,
) -> Result<Sides<Trailed<'c, 'a>, Copied<'c, 'a>>, Failure> {
    let one = Trailed::new(alloc, code, input, work)?;
    let other = Copied::new(alloc, code, input, work)?;
    Ok(Sides { one, other })
}

impl<'c, A: Asks<'c>, B: Asks<'c>> Sides<A, B> {
    /// Checks that the machines are alike.
    pub fn are_alike(&self) -> Result<(), Failure> {
        are_alike(&self.one, &self.other)
    }

    /// Returns what the machines ask.
    pub fn asks(&self) -> Ask<'c> {
        self.other.asks()
    }

    /// Returns whether there is a mark.
    pub fn is_marked(&self) -> bool {
        self.other.marks() > 0
    }

    /// Sets a mark.
    pub fn mark(&mut self) -> Result<(), Failure> {
        mark(&mut self.one)?;
        mark(&mut self.other)?;
        self.are_alike()
    }

    /// Goes back to the last mark. There must be a mark.
    pub fn back(&mut self) -> Result<(), Failure> {
        back(&mut self.one)?;
        back(&mut self.other)?;
        self.are_alike()
    }

    /// Drops the last mark. There must be a mark.
    pub fn drop_mark(&mut self) -> Result<(), Failure> {
        drop_mark(&mut self.one)?;
        drop_mark(&mut self.other)?;
        self.are_alike()
    }

    /// Makes a step, unless the run has ended.
    pub fn step(&mut self, done: bool) -> Result<(), Failure> {
        if goes_on(&mut self.one, done)? != goes_on(&mut self.other, done)? {
            return Err(Failure::GoesOnAlone);
        }
        self.are_alike()
    }

    /// Makes steps up to the next choice or the end of the run, a hundred at most: the one machine
    /// in one call, which may follow traces, and the other step by step.
    pub fn run(&mut self) -> Result<(), Failure> {
        for _ in 0..run(&mut self.one)? {
            step(&mut self.other, false)?;
        }
        self.are_alike()
    }
}
