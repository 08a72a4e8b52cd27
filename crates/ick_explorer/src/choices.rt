//! Keeps a list of choices, and what its text is made of.

ghost use Rattle.std.specs.Prelude.{◌≡◌, ◌<◌, ◌∷◌, ◌++◌, [], length, OnOk, OnErr};
ghost use Rattle.ick_explorer.specs.ChoiceTexts.{choices_text};
ghost use Rattle.ick_explorer.specs.Listings.{zeros_in};
ghost use Rattle.ick_explorer.specs.Paths.{Turns};

use crate::choice_texts::{MOST_PLAIN, digit, push_group};
use crate::stretches::{Stretch, group, shorten};
use ick_bits::{NoMemory, append_all};
use std::alloc::Global;
use std::marker::Model;

/// Holds a list of choices, the digits of its first `MOST_PLAIN` choices, and the stretches of its
/// first `grouped` choices. So a text costs no more than what changed since the last one, and what
/// is appended. Contracts see the list.
#[derive(Drop)]
pub(crate) struct Choices {
    list: Vec<bool>,
    digits: [u8; MOST_PLAIN],
    stretches: Vec<Stretch>,
    grouped: usize,
}

impl Model for Choices {
    ghost use Rattle.std.specs.Prelude.{Bool, List};

    ghost Value = { List Bool };

    ghost use Rattle.ick_explorer.specs.Choices.{KeepsText, seen_stretches};

    ghost view = { λ c. c.list.items };

    ghost invariant = { λ c.
        KeepsText c.digits (seen_stretches c.stretches.items) c.grouped c.list.items };
}

impl Choices {
    /// Returns an empty list, which takes no memory.
    pub(crate) fn new(alloc: Global) -> Choices
        ensures { result ≡ [] }
    {
        Choices {
            list: Vec::new(alloc),
            digits: [0; MOST_PLAIN],
            stretches: Vec::new(alloc),
            grouped: 0,
        }
    }

    /// Returns the choices.
    pub(crate) fn as_slice(&self) -> &[bool]
        ensures { result.now ≡ self.now }
    {
        self.list.as_slice()
    }

    /// Appends a choice. If this call runs out of memory, the list is unchanged.
    #[inline(always)]
    pub(crate) fn push(&mut self, choice: bool) -> Result<(), NoMemory>
        ensures ok { OnOk result (self.new ≡ self.old ++ choice ∷ []) }
        ensures err { OnErr result (self.new ≡ self.old) }
    {
        let at = self.list.len();
        let Ok(()) = self.list.push(choice) else {
            return Err(NoMemory);
        };
        if at >= MOST_PLAIN {
            return Ok(());
        }
        self.digits[at] = digit(choice);
        Ok(())
    }

    /// Turns the last zero into a one, and removes the ones after it. The list must have a zero.
    #[inline(always)]
    pub(crate) fn turn(&mut self)
        requires { 0 < zeros_in self.old }
        ensures { Turns self.old self.new }
    {
        while let Some(done) = self.list.pop() {
            let at = self.list.len();
            if at < self.grouped {
                shorten(&mut self.stretches);
                self.grouped = at;
            }
            if !done {
                self.list.push_reserved(true);
                if at < MOST_PLAIN {
                    self.digits[at] = digit(true);
                }
                return;
            }
        }
    }

    /// Removes all choices.
    pub(crate) fn clear(&mut self)
        ensures { self.new ≡ [] }
    {
        self.list.clear();
        self.stretches.clear();
        self.grouped = 0;
    }

    /// Appends the text of the choices, of which there must be more than `MOST_PLAIN`. If this call
    /// runs out of memory, it may have appended a prefix of the text.
    #[inline(never)]
    fn append_groups(&mut self, out: &mut Vec<u8>) -> Result<(), NoMemory>
        requires { 64 < length self.old }
        ensures text { OnOk result (out.new.items ≡ out.old.items ++ choices_text self.old) }
        ensures same { self.new ≡ self.old }
    {
        if group(&mut self.stretches, &self.list, self.grouped).is_err() {
            self.stretches.clear();
            self.grouped = 0;
            return Err(NoMemory);
        }
        self.grouped = self.list.len();
        let mut later = false;
        for stretch in &self.stretches {
            push_group(out, later, stretch.choice, stretch.size)?;
            later = true;
        }
        Ok(())
    }

    /// Appends the text of the choices. If this call runs out of memory, it may have appended a
    /// prefix of the text.
    pub(crate) fn append_text(&mut self, out: &mut Vec<u8>) -> Result<(), NoMemory>
        ensures text { OnOk result (out.new.items ≡ out.old.items ++ choices_text self.old) }
        ensures same { self.new ≡ self.old }
    {
        let count = self.list.len();
        if count > MOST_PLAIN {
            return self.append_groups(out);
        }
        if count == 0 {
            return append_all(out, &[b"-"]);
        }
        match out.extend_from_slice(&self.digits[..count]) {
            Ok(()) => Ok(()),
            Err(_) => Err(NoMemory),
        }
    }
}
