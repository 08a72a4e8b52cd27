//! Bytes of a source, with their lines and columns.

ghost use Rattle.std.specs.Prelude.{◌≡◌, ◌≤◌, ℕ, List, length};
ghost use Rattle.ick_source.specs.Bytes.{IsGap};
ghost use Rattle.ick_stages.specs.Starts.{IsPoint, behind};

use ick_inspect::{LineColumn, moved};
use ick_source::bytes::after_white;

/// A byte of a source, with its line and column.
#[derive(Clone, Copy)]
pub struct Point {
    pub at: usize,
    pub position: LineColumn,
}

impl Point {
    /// Returns the first byte.
    pub fn first() -> Point
        ensures at { result.at ≡ 0 }
        ensures point { (source : List ℕ) → IsPoint source result }
    {
        Point {
            at: 0,
            position: LineColumn { line: 1, column: 1 },
        }
    }

    /// Returns the byte at `to`, which is no earlier one.
    fn moved_to(self, source: &[u8], to: usize) -> Point
        requires point { IsPoint source.now self }
        requires order { self.at ≤ to }
        requires within { to ≤ length source.now }
        ensures at { result.at ≡ to }
        ensures point { IsPoint source.now result }
    {
        Point {
            at: to,
            position: moved(source, self.at, to, self.position),
        }
    }

    /// Returns the first byte from here on that isn't white, at which the next statement begins.
    pub fn past_white(self, source: &[u8]) -> Point
        requires point { IsPoint source.now self }
        ensures gap { IsGap source.now self.at result.at }
        ensures point { IsPoint source.now result }
    {
        self.moved_to(source, after_white(source, self.at))
    }

    /// Returns the byte behind a text that begins here.
    pub fn past_text(self, source: &[u8], text: &[u8]) -> Point
        requires point { IsPoint source.now self }
        ensures at { result.at ≡ behind source.now self.at text.now }
        ensures point { IsPoint source.now result }
    {
        let left = source.len() - self.at;
        self.moved_to(source, self.at + text.len().min(left))
    }
}
