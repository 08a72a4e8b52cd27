//! A text as a feed, and a machine that reads its input from it.

ghost use Rattle.std.specs.Prelude.{true};

use crate::failure::Failure;
use ick_code::Code;
use ick_devices::{Feed, FeedFault};
use ick_machine::{Live, LiveAsk};
use std::alloc::Global;
use test_rows::first_line;

/// A text as a feed. A read fails when `unread` bytes are left.
#[derive(Drop)]
pub struct TextFeed<'t> {
    pub text: &'t [u8],
    pub unread: usize,
    pub failures: u64,
}

impl<'t> TextFeed<'t> {
    /// Makes a feed in which no read fails.
    pub fn new(text: &'t [u8]) -> TextFeed<'t> {
        TextFeed {
            text,
            unread: usize::MAX,
            failures: 0,
        }
    }
}

impl Feed for TextFeed<'_> {
    ghost told = { true };

    ghost left = { λ feed. feed.text.now };

    ghost failed = { λ feed. feed.failures };

    ghost Held = { Unit {0} };

    ghost held = { λ _. tt };

    fn failures(&self) -> u64 {
        self.failures
    }

    fn line(&mut self, target: &mut Vec<u8>) -> Result<bool, FeedFault> {
        if self.text.len() == self.unread {
            self.failures += 1;
            return Err(FeedFault::Read);
        }
        if self.text.is_empty() {
            return Ok(false);
        }
        let line = first_line(self.text);
        target.clear();
        target.extend_from_slice(line)?;
        let next = (line.len() + 1).min(self.text.len());
        self.text = &self.text[next..];
        Ok(true)
    }

    fn byte(&mut self) -> Result<Option<u8>, FeedFault> {
        if self.text.len() == self.unread {
            self.failures += 1;
            return Err(FeedFault::Read);
        }
        let Some((byte, rest)) = self.text.split_first() else {
            return Ok(None);
        };
        self.text = rest;
        Ok(Some(*byte))
    }
}

/// A machine, and the feed that it reads its input from.
#[derive(Drop)]
pub struct Fed<'c, 'a, 't> {
    pub live: Live<'c, 'a>,
    pub feed: TextFeed<'t>,
}

impl<'c, 'a, 't> Fed<'c, 'a, 't> {
    /// Makes a machine at the start of a program.
    pub fn new(
        alloc: Global,
        code: &'c Code<'a>,
        feed: TextFeed<'t>,
    ) -> Result<Fed<'c, 'a, 't>, Failure> {
        Ok(Fed {
            live: Live::new(alloc, code)?,
            feed,
        })
    }

    /// Returns what the machine asks.
    pub fn asks(&self) -> LiveAsk {
        self.live.asks()
    }

    /// Returns the output since it was last cleared.
    pub fn output(&self) -> &[u8] {
        self.live.output()
    }

    /// Clears the output.
    pub fn clear_output(&mut self) {
        self.live.clear_output();
    }

    /// Returns the message of the fault that ended the run.
    pub fn message(&self, alloc: Global) -> Result<Vec<u8>, Failure> {
        let mut message = Vec::new(alloc);
        self.live.append_fault(&mut message)?;
        Ok(message)
    }

    /// Makes a step, unless the run has ended or failed. Returns whether there was a step.
    pub fn goes_on(&mut self, done: bool) -> Result<bool, Failure> {
        if self.feed.failures > 0 {
            return Ok(false);
        }
        match self.live.asks() {
            LiveAsk::Plain => self.live.step(done, &mut self.feed)?,
            LiveAsk::Choice(_) => self.live.step(done, &mut self.feed)?,
            _ => return Ok(false),
        }
        Ok(true)
    }
}
