//! The front of a text, in a caller's memory.
ghost use Rattle.std.specs.Prelude.{◌≡◌, length};
ghost use Rattle.ick_c.specs.Room.{filled};

/// Copies the front of a text into `room`, as much as there is room, and returns the length of the
/// whole text. The rest of the room is unchanged.
pub fn fill(room: &mut [u8], text: &[u8]) -> usize
    ensures room { room.new ≡ filled text.now room.old }
    ensures length { result ≡ length text.now }
{
    let count = text.len().min(room.len());
    room[..count].copy_from_slice(&text[..count]);
    text.len()
}
