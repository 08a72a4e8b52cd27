//! Bytes as arrays hold them: each as its distance from the byte before it, on a tape of 256
//! positions.

ghost use Rattle.std.specs.Prelude.{◌≡◌, ◌+◌, ◌%◌};
ghost use Rattle.ick_bits.specs.Tape.{tape_position, reversed_byte, tape_difference};

/// Returns what the element `number` of an array writes from the position `last` of the tape: the
/// new position, and the byte there (Revised Manual, 5.2). The new position is `last - number`
/// modulo 256. The byte is the position with its eight bits in reverse order. The tape begins at
/// position 0.
pub fn tape_out(last: u8, number: u16) -> (u8, u8)
    ensures position { result.0 ≡ tape_position last number }
    ensures byte { result.1 ≡ reversed_byte result.0 }
    ensures back { (result.0 + number) % 256 ≡ last }
    ensures again { reversed_byte result.1 ≡ result.0 }
{
    let position = last.wrapping_sub((number % 256) as u8);
    (position, reversed(position))
}

/// Returns the eight bits of a byte in reverse order.
#[tactic(auto, using(crate::proofs::TapeLemmas::reverses, crate::proofs::TapeLemmas::twice))]
fn reversed(byte: u8) -> u8
    ensures value { result ≡ reversed_byte byte }
    ensures again { reversed_byte result ≡ byte }
{
    byte.reverse_bits()
}

/// Returns the element of an array that reads `byte` from the input: `byte - lastin` modulo 256
/// (Revised Manual, 5.2). `lastin` is the byte read before it, or 0 at first.
pub fn tape_in(lastin: u8, byte: u8) -> u16
    ensures value { result ≡ tape_difference lastin byte }
    ensures back { (lastin + result) % 256 ≡ byte }
{
    u16::from(byte.wrapping_sub(lastin))
}
