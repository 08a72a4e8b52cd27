//! The choices that a run is given: those of a list, or those that a seed draws.

ghost use Rattle.ick_session.specs.Drawn.{AreWords};

use ick_bits::NoMemory;
use ick_runs::{Cursor, drawn};
use rand_core::SeedableRng;
use rand_core::utils::NextWord;
use rand_pcg::Pcg32;
use std::alloc::Global;

/// The words of a seed that were drawn so far, and the generator of the next ones.
#[derive(Drop)]
pub struct Words {
    seed: u64,
    generator: Pcg32,
    drawn: Vec<u32>,
    ghost kept: { ∥ AreWords seed generator drawn.items ∥₁ },
}

/// The choices that a run is given. A run that goes back asks for its choices again, and is given
/// the same ones.
#[derive(Drop)]
pub enum Given {
    Listed(Option<Cursor>),
    Drawn(Words),
}

impl Words {
    ghost use Rattle.std.specs.Prelude.{◌≡◌, ◌+◌, IfOk, length};
    ghost use Rattle.ick_runs.specs.Draws.{word_of};

    /// Returns the words of a seed.
    fn new(alloc: Global, seed: u64) -> Words
        ensures { result.seed ≡ seed }
    {
        Words {
            seed,
            generator: Pcg32::seed_from_u64(seed),
            drawn: Vec::new(alloc),
        }
    }

    /// Returns a word by its position, the first of which is 0.
    fn word(&mut self, position: usize) -> Result<u32, NoMemory>
        ensures seed { self.new.seed ≡ self.old.seed }
        ensures is { IfOk result (λ word. word ≡ word_of self.old.seed position) }
    {
        'draw: while self.drawn.len() <= position {
            self.draw()?;
        }
        Ok(self.drawn[position])
    }

    /// Draws one more word.
    fn draw(&mut self) -> Result<(), NoMemory>
        ensures seed { self.new.seed ≡ self.old.seed }
        ensures more { IfOk result (λ _. length self.new.drawn.items
            ≡ length self.old.drawn.items + 1) }
    {
        self.drawn.reserve(1)?;
        let word = self.generator.next_word();
        self.drawn.push_reserved(word);
        Ok(())
    }
}

impl Given {
    ghost use Rattle.std.specs.Prelude.{◌≡◌, ◌<◌, IfOk};
    ghost use Rattle.ick_runs.specs.Chosen.{answer_of, seeded};
    ghost use Rattle.ick_session.specs.Given.{given_by};

    /// Returns the choices that a seed draws.
    pub fn seeded(alloc: Global, seed: u64) -> Given
        ensures { given_by result ≡ seeded seed }
    {
        Given::Drawn(Words::new(alloc, seed))
    }

    /// Returns the choice at a position, if a statement with this chance asks it. The position of
    /// the first choice is 0, and the chance is from 1 to 99. Returns `None` if no choice is left.
    /// `NoMemory` is the only refusal.
    pub fn choice(&mut self, position: usize, chance: u8) -> Result<Option<bool>, NoMemory>
        requires low { 0 < chance }
        requires high { chance < 100 }
        ensures same { given_by self.new ≡ given_by self.old }
        ensures is { IfOk result (λ found.
            found ≡ answer_of (given_by self.old) position chance) }
    {
        match self {
            Given::Listed(None) => Ok(None),
            Given::Listed(Some(cursor)) => Ok(cursor.choices().get(position).copied()),
            Given::Drawn(words) => {
                let word = words.word(position)?;
                Ok(Some(drawn(word, chance)))
            }
        }
    }
}
