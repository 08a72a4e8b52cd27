//! A text as the input of a run.

ghost use Rattle.std.specs.Prelude.{◌≡◌, ◌==◌, ◌≤◌, ℕ, false, List, length, refl};
ghost use Rattle.std.specs.List.{position_or_len};
ghost use Rattle.ick_runtime.specs.Inputs.{input_of};

use crate::reader::{Line, Reader};
use ick_bits::{DigitFault, NoMemory, digits_value};

/// Reads the input of a run from a text.
#[derive(Clone, Copy)]
pub struct TextReader<'c> {
    text: &'c [u8],
}

impl<'c> TextReader<'c> {
    /// Returns a reader of a text.
    pub fn new(text: &'c [u8]) -> TextReader<'c>
        ensures { result.text.now ≡ text.now }
    {
        TextReader { text }
    }
}

impl<'c> Reader for TextReader<'c> {
    ghost Has = { λ reader input. input ≡ input_of reader.text.now };

    ghost Held = { List ℕ };

    ghost held = { λ reader. reader.text.now };

    ghost waits = { λ _. false };

    ghost Prints = { λ _ _. Unit {0} };

    ghost some = { λ reader. (input_of reader.text.now, refl) };

    fn is_waiting(&self) -> bool {
        false
    }

    fn leave(&mut self, output: &[u8]) -> Result<bool, NoMemory> {
        Ok(false)
    }

    #[tactic(auto, using(crate::proofs::TextLemmas::rest_of, crate::proofs::TextLemmas::word_line))]
    fn line(&mut self, from: usize) -> Result<Option<Line>, NoMemory> {
        if from >= self.text.len() {
            return Ok(None);
        }
        let rest = &self.text[from..];
        let length = line_length(rest);
        let number = match digits_value(&rest[..length]) {
            Ok(number) => Ok(number),
            Err(DigitFault::Word { from: begin, to }) => Err(DigitFault::Word {
                from: from + begin,
                to: from + to,
            }),
            Err(DigitFault::TooLarge) => Err(DigitFault::TooLarge),
        };
        Ok(Some(Line {
            number,
            next: from + length + 1,
        }))
    }

    fn byte(&mut self, from: usize) -> Result<Option<(u8, usize)>, NoMemory> {
        if from >= self.text.len() {
            return Ok(None);
        }
        Ok(Some((self.text[from], from + 1)))
    }
}

/// Returns how many bytes there are before the end of the first line.
fn line_length(rest: &[u8]) -> usize
    ensures place { result ≡ position_or_len (λ b. b == 10) rest.now }
    ensures within { result ≤ length rest.now }
{
    rest.iter()
        .position(|byte| *byte == b'\n')
        .unwrap_or(rest.len())
}
