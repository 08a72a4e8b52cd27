//! Reads the text of a list of choices.

ghost use Rattle.std.specs.Prelude.{◌≡◌, ◌≢◌, ◌<◌, ◌≤◌, ◌⊎◌, ◌==◌, List, [], ◌∷◌, Bool};
ghost use Rattle.std.specs.Prelude.{true, false};
ghost use Rattle.std.specs.Prelude.{length, map, Err, IfOk, IfErr};
ghost use Rattle.std.specs.List.{list_all};
ghost use Rattle.ick_explorer.specs.ChoiceTexts.{IsPlain, IsTextOf, is_digit};

use crate::errors::RunsError;
use crate::groups::read_groups;
use std::alloc::Global;

/// Returns whether the text has one or more bytes, and each is the digit of a choice.
fn all_digits(text: &[u8]) -> bool
    ensures some { result ≡ true → 0 < length text.now }
    ensures all { result ≡ true → list_all is_digit text.now ≡ true }
    ensures none { result ≡ false → text.now ≢ 45 ∷ [] → (c : List Bool) → ¬ IsPlain text.now c }
{
    for byte in text {
        if *byte != b'0' && *byte != b'1' {
            return false;
        }
    }
    !text.is_empty()
}

/// Returns the choices of a text of digits. The answer is `NoMemory` if the list can't grow.
fn choices_of(alloc: Global, text: &[u8]) -> Result<Vec<bool>, RunsError>
    ensures ok { IfOk result (λ choices. choices.items ≡ map (λ b. b == 49) text.now) }
    ensures err { IfErr result (λ e. e ≡ RunsError.NoMemory) }
{
    let Ok(mut choices) = Vec::with_capacity(alloc, text.len()) else {
        return Err(RunsError::NoMemory);
    };
    for byte in text {
        choices.push_reserved(*byte == b'1');
    }
    Ok(choices)
}

/// Reads the text of a list of at most `limit` choices. This call checks the whole text before it
/// takes memory.
///
/// The refusals are, in this order:
///
/// - `BadCursor` if the text is not the text of a list of choices.
/// - `NoSuchRun` if the list has more choices than `limit`.
/// - `NoMemory` if this call runs out of memory.
pub(crate) fn read_choices(alloc: Global, text: &[u8], limit: u32) -> Result<Vec<bool>, RunsError>
    ensures ok { IfOk result (λ choices.
        IsTextOf text.now choices.items × (length choices.items ≤ limit)) }
    ensures bad_cursor { result ≡ Err RunsError.BadCursor →
        (c : List Bool) → ¬ IsTextOf text.now c }
    ensures no_such_run { result ≡ Err RunsError.NoSuchRun →
        (c : List Bool) × IsTextOf text.now c × (limit < length c) }
    ensures no_memory { result ≡ Err RunsError.NoMemory →
        (c : List Bool) × IsTextOf text.now c × (length c ≤ limit) }
    ensures errors { IfErr result (λ e. (e ≡ RunsError.NoMemory)
        ⊎ ((e ≡ RunsError.NoSuchRun) ⊎ (e ≡ RunsError.BadCursor))) }
{
    if text == b"-".as_slice() {
        return Ok(Vec::new(alloc));
    }
    if !all_digits(text) {
        return read_groups(alloc, text, limit);
    }
    if text.len() > limit as usize {
        return Err(RunsError::NoSuchRun);
    }
    choices_of(alloc, text)
}
