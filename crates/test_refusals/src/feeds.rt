//! A text as a feed.

ghost use Rattle.std.specs.Prelude.{true};

use ick_devices::{Feed, FeedFault};
use test_rows::first_line;

/// A text as a feed. It fails only if memory runs out.
#[derive(Drop)]
pub struct TextFeed<'t> {
    pub text: &'t [u8],
}

impl Feed for TextFeed<'_> {
    ghost told = { true };

    ghost left = { λ feed. feed.text.now };

    ghost failed = { λ _. 0 };

    ghost Held = { Unit {0} };

    ghost held = { λ _. tt };

    fn failures(&self) -> u64 {
        0
    }

    fn line(&mut self, target: &mut Vec<u8>) -> Result<bool, FeedFault> {
        if self.text.is_empty() {
            return Ok(false);
        }
        let line = first_line(self.text);
        target.clear();
        target.extend_from_slice(line)?;
        let next = (line.len() + 1).min(self.text.len());
        self.text = &self.text[next..];
        Ok(true)
    }

    fn byte(&mut self) -> Result<Option<u8>, FeedFault> {
        let Some((byte, rest)) = self.text.split_first() else {
            return Ok(None);
        };
        self.text = rest;
        Ok(Some(*byte))
    }
}
