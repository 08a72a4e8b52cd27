//! The lines of a listing, and their first words.

ghost use Rattle.std.specs.Prelude.{◌≡◌, ◌<◌, ◌++◌, ◌∷◌, None, IfSome, false, length, true};
ghost use Rattle.std.specs.Str.Iter.{LacksByte};
ghost use Rattle.ick_outcomes_cli.specs.Lines.{IsLast};

/// Returns the first line of a text, and what is behind its line end. Returns `None` if the text
/// has no line end.
pub fn first_line(text: &[u8]) -> Option<(&[u8], &[u8])>
    ensures shorter { IfSome result (λ p. length p.1.now < length text.now) }
    ensures whole { IfSome result (λ p. p.0.now ++ (10 ∷ p.1.now) ≡ text.now) }
    ensures first { IfSome result (λ p. LacksByte 10 p.0.now) }
    ensures none { result ≡ None → LacksByte 10 text.now }
{
    let at = text.iter().position(|b| *b == b'\n')?;
    Some((&text[..at], &text[at + 1..]))
}

/// Returns the first word of a line, and what is behind its blank. Returns `None` if the line has
/// no blank.
pub fn first_word(line: &[u8]) -> Option<(&[u8], &[u8])>
    ensures whole { IfSome result (λ p. p.0.now ++ (32 ∷ p.1.now) ≡ line.now) }
    ensures first { IfSome result (λ p. LacksByte 32 p.0.now) }
    ensures none { result ≡ None → LacksByte 32 line.now }
{
    let at = line.iter().position(|b| *b == b' ')?;
    Some((&line[..at], &line[at + 1..]))
}

/// Returns whether a line is the last line of a listing.
pub fn is_last(line: &[u8]) -> bool
    ensures yes { result ≡ true → IsLast line.now }
    ensures no { result ≡ false → ¬ IsLast line.now }
{
    line == b"DONE".as_slice() || line == b"MORE".as_slice()
}
