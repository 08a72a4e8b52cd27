//! Feeds the input of a run from a source of bytes.

ghost use Rattle.std.specs.Prelude.{if◌then◌else◌, [], Bool, ℕ, Option, Some, None};

use crate::feed::Feed;
use crate::feed_fault::FeedFault;
use crate::source::ByteSource;

/// How many bytes of a line are read at once.
const BLOCK: usize = 64;

/// The input of a run: what a source gives, line by line and byte by byte, and no further byte. Or
/// the input is empty, and the source isn't read.
#[derive(Drop)]
pub struct SourceFeed<'r, R: ByteSource> {
    pub source: &'r mut R,
    /// Whether the input is empty, whatever the source has.
    pub is_empty: bool,
}

impl<R: ByteSource> Feed for SourceFeed<'_, R> {
    ghost told = { R.told };

    ghost left = { λ feed. if feed.is_empty then [] else R.left feed.source.now };

    ghost failed = { λ feed. R.failed feed.source.now };

    ghost Held = { ℕ × Bool × Option R };

    ghost held = { λ feed. (
      feed.source.ghost_name,
      feed.is_empty,
      if feed.is_empty then Some feed.source.now else None,
    ) };

    fn failures(&self) -> u64 {
        self.source.failures()
    }

    fn line(&mut self, target: &mut Vec<u8>) -> Result<bool, FeedFault> {
        target.clear();
        if self.is_empty {
            return Ok(false);
        }
        let mut block = [0; BLOCK];
        'reads: loop {
            let Ok(count) = self.source.read_in_line(&mut block) else {
                return Err(FeedFault::Read);
            };
            if count == 0 {
                return Ok(!target.is_empty());
            }
            if block[count - 1] == b'\n' {
                target.extend_from_slice(&block[..count - 1])?;
                return Ok(true);
            }
            target.extend_from_slice(&block[..count])?;
        }
    }

    fn byte(&mut self) -> Result<Option<u8>, FeedFault> {
        if self.is_empty {
            return Ok(None);
        }
        let mut byte = [0];
        match self.source.read(&mut byte) {
            Err(_) => Err(FeedFault::Read),
            Ok(0) => Ok(None),
            Ok(_) => Ok(Some(byte[0])),
        }
    }
}
