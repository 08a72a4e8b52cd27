//! The first line of a text.

ghost use Rattle.std.specs.Prelude.{◌≡◌, ◌==◌};
ghost use Rattle.std.specs.List.{before_first};

/// Returns the first line of a text, without the byte 10 that ends it. The first line of a line is
/// the line itself.
pub fn first_line(text: &[u8]) -> &[u8]
    ensures line { result.now ≡ before_first (λ b. b == 10) text.now }
    ensures once { before_first (λ b. b == 10) result.now ≡ result.now }
{
    for (index, byte) in text.iter().enumerate() {
        if *byte == b'\n' {
            return &text[..index];
        }
    }
    text
}
