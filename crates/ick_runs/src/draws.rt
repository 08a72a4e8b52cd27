//! Defines the meaning of a word at a chance.

ghost use Rattle.std.specs.Prelude.{◌≡◌, ◌<◌};
ghost use Rattle.ick_runs.specs.Draws.{means_done};

/// Returns whether a generator's word means that a statement of this chance is done. The statement
/// is done if `(word * 100) >> 32`, which is from 0 to 99, is below the chance (this profile).
///
/// The chance is in hundredths, from 1 to 99.
#[tactic(auto, unfolding(crate::specs::Draws::means_done))]
pub fn drawn(word: u32, chance: u8) -> bool
    requires low { 0 < chance }
    requires high { chance < 100 }
    ensures { result ≡ means_done word chance }
{
    (u64::from(word) * 100) >> 32 < u64::from(chance)
}
