//! Readers of a run's input, line by line or byte by byte, which also let its output leave.

ghost use Rattle.std.specs.Prelude.{◌≡◌, ℕ, List, Bool, true, Ok, IfOk};
ghost use Rattle.ick_engine.specs.Reads.{IsNext, IsByte};
ghost use Rattle.ick_runtime.specs.Inputs.{Leads, Input};

use ick_bits::{DigitFault, NoMemory};

/// A line of input that was read.
#[derive(Clone, Copy)]
pub struct Line {
    /// Its number, or why it has none. The ends of a word are positions of the input.
    pub number: Result<u32, DigitFault>,
    /// The position of the next line.
    pub next: usize,
}

/// Reads the input of a run. If the source is a text, only one input may be left. Otherwise any
/// input may be left that agrees with what was read. A call that fails for another reason returns
/// `NoMemory` too, and the reader keeps the reason.
pub trait Reader: Drop {
    /// Whether this may be the input that is left.
    ghost Has: { Self → Input → Type 0 };

    /// The type of what every call keeps.
    ghost Held: { Type 0 };

    /// What every call keeps: the text that is read, or the name of a reference to the source.
    ghost held: { Self → Self.Held };

    /// Whether the loop waits before a WRITE IN that is certain to be done, by what every call
    /// keeps.
    ghost waits: { Self.Held → Bool };

    /// Whether this may be all output of the run so far, by what every call keeps.
    ghost Prints: { Self.Held → List ℕ → Type 0 };

    /// Some input may be left.
    ghost some: { (reader : Self) → (input : Input) × Has reader input };

    /// Returns whether the loop waits before a WRITE IN that is certain to be done.
    fn is_waiting(&self) -> bool
        ensures { result ≡ waits (held self.now) };

    /// Lets the output leave that the memory holds, but not what has left before. Returns whether
    /// the loop stops, so that the memory can be cleared.
    fn leave(&mut self, output: &[u8]) -> Result<bool, NoMemory>
        requires { Prints (held self.old) output.now }
        ensures input { Leads Has self.old self.new (λ before after. before ≡ after) }
        ensures held { held self.new ≡ held self.old }
        ensures stops { result ≡ Ok true → waits (held self.old) ≡ true };

    /// Reads the line that begins at a position, if there is one.
    fn line(&mut self, from: usize) -> Result<Option<Line>, NoMemory>
        ensures next { IfOk result (λ line. Leads Has self.old self.new (IsNext line from)) }
        ensures held { held self.new ≡ held self.old };

    /// Reads the byte at a position, if there is one. Returns the byte and the next position.
    fn byte(&mut self, from: usize) -> Result<Option<(u8, usize)>, NoMemory>
        ensures next { IfOk result (λ byte. Leads Has self.old self.new (IsByte byte from)) }
        ensures held { held self.new ≡ held self.old };
}
