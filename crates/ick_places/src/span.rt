//! The bytes of a text between two of its positions.

ghost use Rattle.std.specs.Prelude.{◌≡◌};
ghost use Rattle.ick_places.specs.Marks.{first_byte as first, last_byte as last};
ghost use Rattle.ick_source.specs.Position.{left_at};

use ick_source::position::Position;

/// Returns the byte that has the first character at the position.
pub fn first_byte(text: &[u8], position: Position) -> usize
    ensures { result ≡ first text.now (left_at text.now position) }
{
    let at = position.at.min(text.len());
    if position.between {
        return at.saturating_sub(1);
    }
    at
}

/// Returns the end of the bytes that have the characters before the position.
pub fn last_byte(text: &[u8], position: Position) -> usize
    ensures { result ≡ last text.now (left_at text.now position) }
{
    let at = position.at.min(text.len());
    if !position.between || at == 0 || text[at - 1] == b'!' {
        return at;
    }
    // A byte that isn't a `!` has one character, which leaves what the second one of a `!` leaves.
    at - 1
}
