//! Names a position in a listing by the choices of one of its runs.

ghost use Rattle.std.specs.Prelude.{◌≡◌, ◌+◌, ◌++◌, ◌<◌, ◌≤◌, ◌⊎◌};
ghost use Rattle.std.specs.Prelude.{List, Bool, length, Err, IfOk};
ghost use Rattle.std.specs.Prelude.{IfErr, OnOk, OnErr, vec_len, vec_capacity};
ghost use Rattle.ick_explorer.specs.ChoiceTexts.{choices_text, IsTextOf};

use crate::choice_texts::append_choices;
use crate::errors::RunsError;
use crate::reading::read_choices;
use ick_bits::NoMemory;
use std::alloc::Global;
use std::marker::Model;

/// Holds the choices of a run. The line of the run shows them as text, and they name the run.
/// Contracts see a cursor as the list of its choices. A cursor doesn't know its program.
#[derive(Drop)]
pub struct Cursor {
    choices: Vec<bool>,
}

impl Model for Cursor {
    ghost use Rattle.std.specs.Prelude.{Bool, List};

    ghost Value = { List Bool };

    ghost view = { λ c. c.choices.items };
}

impl Cursor {
    /// Reads the text of a cursor, which may have at most `limit` choices (this profile).
    ///
    /// A plain text has one digit a choice, or is `-` for no choices. A text of groups, as
    /// `0*70,1*2`, has one group for each stretch of equal choices. A group is the digit, `*` and
    /// the length of the stretch. The length is a number from 1 on without leading zeros. Commas
    /// separate the groups, and two neighbours have different digits. This call reads every printed
    /// text back.
    ///
    /// The refusals are, in this order:
    ///
    /// - `BadCursor` for any other text.
    /// - `NoSuchRun` if the text has more choices than `limit`. This check takes no memory, however
    ///   long a number is.
    /// - `NoMemory` if this call runs out of memory.
    pub fn from_text(alloc: Global, text: &[u8], limit: u32) -> Result<Cursor, RunsError>
        ensures ok { IfOk result
            (λ cursor. IsTextOf text.now cursor × (length cursor ≤ limit)) }
        ensures bad_cursor { result ≡ Err RunsError.BadCursor →
            (c : List Bool) → ¬ IsTextOf text.now c }
        ensures no_such_run { result ≡ Err RunsError.NoSuchRun →
            (c : List Bool) × IsTextOf text.now c × (limit < length c) }
        ensures no_memory { result ≡ Err RunsError.NoMemory →
            (c : List Bool) × IsTextOf text.now c × (length c ≤ limit) }
        ensures errors { IfErr result (λ e. (e ≡ RunsError.NoMemory)
            ⊎ ((e ≡ RunsError.NoSuchRun) ⊎ (e ≡ RunsError.BadCursor))) }
        ensures back { (c : List Bool) → text.now ≡ choices_text c → length c ≤ limit →
            IfOk result (λ cursor. cursor ≡ c) × IfErr result (λ e. e ≡ RunsError.NoMemory) }
    {
        match read_choices(alloc, text, limit) {
            Err(refused) => Err(refused),
            Ok(choices) => Ok(Cursor { choices }),
        }
    }

    /// Returns the choices. The first choice of the run comes first.
    pub fn choices(&self) -> &[bool]
        ensures { result.now ≡ self.now }
    {
        self.choices.as_slice()
    }

    /// Appends the text of the choices (this profile): plain for at most 64 choices, in groups for
    /// more.
    ///
    /// The answer is `NoMemory` only if `out` has no room for the text and can't grow. `out` is
    /// then unchanged.
    pub fn append_text(&self, out: &mut Vec<u8>) -> Result<(), NoMemory>
        ensures ok { OnOk result (out.new.items ≡ out.old.items ++ choices_text self.now) }
        ensures err { OnErr result (out.new.items ≡ out.old.items) }
        ensures full { OnErr result
            (vec_capacity out.old < vec_len out.old + length (choices_text self.now)) }
        ensures capacity { vec_capacity out.old ≤ vec_capacity out.new }
    {
        append_choices(out, self.choices.as_slice())
    }
}
