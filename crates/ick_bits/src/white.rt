//! White bytes, which separate words and tokens.

ghost use Rattle.std.specs.Prelude.{◌≡◌};
ghost use Rattle.ick_bits.specs.White.{is_white_byte};

/// Returns whether the byte is white: 9 to 13, or 32 (this profile).
pub fn is_white(byte: u8) -> bool
    ensures { result ≡ is_white_byte byte }
{
    matches!(byte, 9..=13 | b' ')
}
