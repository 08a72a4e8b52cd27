//! Supplies the choices of a streamed run.

ghost use Rattle.std.specs.Prelude.{◌≡◌, ◌+◌, ◌<◌};
ghost use Rattle.ick_runs.specs.Chosen.{Chosen, Picks, answer_of, chosen_of};

use crate::draws::drawn;
use rand_core::SeedableRng;
use rand_core::utils::NextWord;
use rand_pcg::Pcg32;

/// Names a list of choices, or a seed that draws choices (this profile).
#[derive(Clone, Copy, Debug)]
pub enum Chooser<'a> {
    /// Lists the choices. The first choice of the run comes first.
    Listed(&'a [bool]),
    /// Holds a seed. Each choice asked takes one word of the generator PCG32 of this seed.
    Seeded(u64),
}

/// Gives the choices one after another.
#[derive(Drop)]
pub(crate) enum Picker<'a> {
    Listed(&'a [bool]),
    Seeded(Pcg32),
}

impl<'a> Picker<'a> {
    /// Returns a picker before the first choice of `chooser`.
    pub(crate) fn new(chooser: Chooser<'a>) -> Picker<'a>
        ensures { Picks (chosen_of chooser.entry) 0 result }
    {
        match chooser {
            Chooser::Listed(choices) => Picker::Listed(choices),
            Chooser::Seeded(seed) => Picker::Seeded(Pcg32::seed_from_u64(seed)),
        }
    }

    /// Returns the choice at a chance, after `asked` earlier choices. The chance is in hundredths,
    /// from 1 to 99. Returns `None` if no choice is left.
    pub(crate) fn pick(&mut self, asked: usize, chance: u8) -> Option<bool>
        requires low { 0 < chance }
        requires high { chance < 100 }
        ensures answer { (chosen : Chosen) → Picks chosen asked self.old →
            result ≡ answer_of chosen asked chance }
        ensures on { (chosen : Chosen) → Picks chosen asked self.old →
            Picks chosen (asked + 1) self.new }
    {
        match self {
            Picker::Listed(choices) => choices.get(asked).copied(),
            Picker::Seeded(generator) => Some(drawn(generator.next_word(), chance)),
        }
    }
}
