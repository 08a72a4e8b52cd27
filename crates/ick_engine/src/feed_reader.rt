//! A feed as the input of a step.

ghost use Rattle.std.specs.Prelude.{◌≡◌, ◌+◌, ◌-◌, ◌<◌, ◌^◌, ℕ, []};
ghost use Rattle.std.specs.Prelude.{true, false, Ok, Err, IsOk, OnOk};
ghost use Rattle.ick_devices.specs.Feeds.{feed_failures};
ghost use Rattle.ick_engine.specs.Feeds.{MayBeLeft, has_ended, one_if, some_left};

use crate::reader::{Line, Reader};
use ick_bits::{NoMemory, digits_value};
use ick_devices::{Feed, FeedFault};

/// Reads the input of a step from a feed. Once no input was left, or a read has failed, the feed
/// isn't asked again. It is never asked unless the step meets a WRITE IN.
#[derive(Drop)]
pub struct FeedReader<'f, F: Feed> {
    pub feed: &'f mut F,
    /// The last line that was read.
    pub line: &'f mut Vec<u8>,
    /// Whether the step meets a WRITE IN.
    pub allowed: bool,
    /// Whether the last read found input, or its fault. It is true before the first read.
    pub last: Result<bool, FeedFault>,
    ghost shut: { allowed ≡ false → last ≡ Ok true },
    ghost room: { feed_failures last ≡ 0 → F.failed feed.now + 1 < 2 ^ 64 },
    ghost over: { has_ended last ≡ true → F.told ≡ true → F.left feed.now ≡ [] },
}

impl<'f, F: Feed> FeedReader<'f, F> {
    /// Returns what a call has come to. If the feed had an error, it is this error.
    pub fn outcome<T: Drop>(&self, came: Result<T, NoMemory>) -> Result<T, FeedFault>
        ensures made { OnOk result (IsOk came) }
        ensures count { feed_failures result ≡ feed_failures self.now.last }
        ensures reads { result ≡ Err FeedFault.Read → self.now.allowed ≡ true }
    {
        match self.last {
            Ok(_) => Ok(came?),
            Err(fault) => Err(fault),
        }
    }
}

impl<F: Feed> Reader for FeedReader<'_, F> {
    ghost Has = { λ reader input. MayBeLeft F.told (has_ended reader.last) reader.line.now.items
        (F.left reader.feed.now) input };

    // The names of the references, what the feed keeps, one more than the reads that had failed
    // before the step, and whether the feed may be asked.
    ghost Held = { F.Held × ℕ × ℕ × ℕ × ℕ };

    ghost held = { λ reader. (
      F.held reader.feed.now,
      reader.feed.ghost_name,
      reader.line.ghost_name,
      F.failed reader.feed.now + 1 - feed_failures reader.last,
      one_if reader.allowed,
    ) };

    ghost waits = { λ _. false };

    ghost Prints = { λ _ _. Unit {0} };

    ghost some = { λ reader. some_left F.told (has_ended reader.last) reader.line.now.items
        (F.left reader.feed.now) reader.over };

    fn is_waiting(&self) -> bool {
        false
    }

    fn leave(&mut self, output: &[u8]) -> Result<bool, NoMemory> {
        Ok(false)
    }

    fn line(&mut self, from: usize) -> Result<Option<Line>, NoMemory> {
        match self.last {
            Ok(true) if self.allowed => {}
            Ok(false) => return Ok(None),
            _ => return Err(NoMemory),
        }
        self.last = self.feed.line(self.line);
        match self.last {
            Ok(true) => Ok(Some(Line {
                number: digits_value(self.line),
                next: from,
            })),
            Ok(false) => Ok(None),
            Err(_) => Err(NoMemory),
        }
    }

    fn byte(&mut self, from: usize) -> Result<Option<(u8, usize)>, NoMemory> {
        match self.last {
            Ok(true) if self.allowed => {}
            Ok(false) => return Ok(None),
            _ => return Err(NoMemory),
        }
        match self.feed.byte() {
            Ok(Some(byte)) => Ok(Some((byte, from))),
            Ok(None) => {
                self.last = Ok(false);
                Ok(None)
            }
            Err(fault) => {
                self.last = Err(fault);
                Err(NoMemory)
            }
        }
    }
}
