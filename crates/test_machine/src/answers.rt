//! The answers to a row.

use crate::failure::Failure;
use ick_bits::{FaultKind, append_decimal};
use ick_machine::{Ask, End};
use std::alloc::Global;

/// Short texts, with a comma between them.
#[derive(Drop)]
pub struct Answers {
    pub text: Vec<u8>,
}

impl Answers {
    /// Makes an empty list of answers.
    pub fn new(alloc: Global) -> Answers {
        Answers {
            text: Vec::new(alloc),
        }
    }

    /// Adds a text.
    pub fn say(&mut self, text: &[u8]) -> Result<(), Failure> {
        if !self.text.is_empty() {
            self.text.extend_from_slice(b", ")?;
        }
        self.text.extend_from_slice(text)?;
        Ok(())
    }

    /// Adds a number and, right behind it, the name of the counted things.
    pub fn count(&mut self, number: u64, name: &[u8]) -> Result<(), Failure> {
        self.say(b"")?;
        append_decimal(&mut self.text, number)?;
        self.text.extend_from_slice(name)?;
        Ok(())
    }

    /// Adds the bytes of a text in double quotes, without escapes.
    pub fn quote(&mut self, text: &[u8]) -> Result<(), Failure> {
        self.say(b"\"")?;
        self.text.extend_from_slice(text)?;
        self.text.push(b'"')?;
        Ok(())
    }

    /// Adds the number of a fault and its statement, as `E241@2`.
    pub fn fault(&mut self, kind: FaultKind, statement: u32) -> Result<(), Failure> {
        self.say(b"E")?;
        self.text.extend_from_slice(&kind.digits())?;
        self.text.push(b'@')?;
        append_decimal(&mut self.text, u64::from(statement))?;
        Ok(())
    }

    /// Adds the question of a machine with marks, or its end. A fault's subject follows the fault.
    pub fn ask(&mut self, ask: Ask<'_>) -> Result<(), Failure> {
        match ask {
            Ask::Plain => self.say(b"plain"),
            Ask::Choice(chance) => self.count(u64::from(chance), b"%"),
            Ask::Ended(End::GiveUp) => self.say(b"given up"),
            Ask::Ended(End::Limit) => self.say(b"limit"),
            Ask::Ended(End::Fault(fault)) => {
                self.fault(fault.kind, fault.statement)?;
                if fault.subject.is_empty() {
                    return Ok(());
                }
                self.quote(fault.subject)
            }
        }
    }

    /// Replaces these answers by a failure in words. Memory that is refused is passed on.
    pub fn fail(&mut self, failure: Failure) -> Result<(), Failure> {
        if let Failure::NoMemory = failure {
            return Err(failure);
        }
        self.text.clear();
        self.say(failure.text())
    }

    /// Adds the other machine's answers, if they differ.
    pub fn agree(&mut self, other: &Answers) -> Result<(), Failure> {
        if self.text == other.text {
            return Ok(());
        }
        self.say(b"but the other machine: ")?;
        self.text.extend_from_slice(&other.text)?;
        Ok(())
    }
}
