//! A text that grows at its end.

ghost use Rattle.std.specs.Prelude.{◌≡◌, [], codes, decimal, false, true, IfOk, OnOk, OnErr};
ghost use Rattle.std.specs.List.{flat_map};
ghost use Rattle.ick_bits.specs.Faults.{message_of};
ghost use Rattle.ick_bits.specs.Quoted.{quoted};
ghost use Rattle.ick_inspect.specs.Text.{Adds, numbers_text};

use ick_bits::{Fault, NoMemory, append_decimal, append_message, append_quoted};
use std::alloc::Global;

/// A text to which pieces are appended. If memory is refused for a piece, the text remembers it,
/// and is of no use until it is cleared.
#[derive(Drop)]
pub struct Text {
    bytes: Vec<u8>,
    refused: bool,
}

impl Text {
    /// Returns an empty text. It takes no memory.
    pub fn new(alloc: Global) -> Text
        ensures empty { result.bytes.items ≡ [] }
        ensures sound { result.refused ≡ false }
    {
        Text {
            bytes: Vec::new(alloc),
            refused: false,
        }
    }

    /// Clears the text, and forgets that memory was refused. It takes no memory.
    pub fn clear(&mut self)
        ensures empty { self.new.bytes.items ≡ [] }
        ensures sound { self.new.refused ≡ false }
    {
        self.bytes.clear();
        self.refused = false;
    }

    /// Returns the bytes of the text, or `NoMemory` if memory was refused for one of its pieces.
    pub fn bytes(&self) -> Result<&[u8], NoMemory>
        ensures bytes { IfOk result (λ bytes. bytes.now ≡ self.now.bytes.items) }
        ensures ok { OnOk result (self.now.refused ≡ false) }
        ensures err { OnErr result (self.now.refused ≡ true) }
    {
        if self.refused {
            return Err(NoMemory);
        }
        Ok(&self.bytes)
    }

    /// Appends bytes.
    pub fn push(&mut self, piece: &[u8])
        ensures { Adds self.old self.new piece.now }
    {
        if !self.refused {
            self.refused = self.bytes.extend_from_slice(piece).is_err();
        }
    }

    /// Appends the decimal digits of a number, without leading zeros.
    pub fn push_decimal(&mut self, number: u64)
        ensures { Adds self.old self.new (decimal number) }
    {
        if !self.refused {
            self.refused = append_decimal(&mut self.bytes, number).is_err();
        }
    }

    /// Appends a text in double quotes, as the lines of listings have it.
    pub fn push_quoted(&mut self, piece: &[u8])
        ensures { Adds self.old self.new (quoted piece.now) }
    {
        if !self.refused {
            self.refused = append_quoted(&mut self.bytes, piece).is_err();
        }
    }

    /// Appends the message of a fault.
    pub fn push_message(&mut self, fault: &Fault<'_>)
        ensures { Adds self.old self.new
            (message_of fault.now.kind fault.now.statement fault.now.subject.now) }
    {
        if !self.refused {
            self.refused = append_message(&mut self.bytes, fault).is_err();
        }
    }

    /// Appends numbers, each behind the same bytes.
    pub(crate) fn push_numbers(&mut self, before: &[u8], numbers: &[u32])
        ensures { Adds self.old self.new (numbers_text before.now numbers.now) }
    {
        for number in numbers {
            self.push(before);
            self.push_decimal(u64::from(*number));
        }
    }
}
