//! Prints lists of choices as texts.

ghost use Rattle.std.specs.Prelude.{◌≡◌, ◌+◌, ◌<◌, ◌≤◌, ◌++◌, OnOk, OnErr};
ghost use Rattle.std.specs.Prelude.{false, length, take};
ghost use Rattle.std.specs.Prelude.{drop, get_or, replicate, vec_len, vec_capacity, map};
ghost use Rattle.ick_explorer.specs.ChoiceTexts.{choices_text, digit_of, group_of, group_text};
ghost use Rattle.ick_explorer.specs.ChoiceTexts.{grouped_text};
ghost use Rattle.ick_explorer.specs.Printing.{StartsOther, comma_before};

use ick_bits::{NoMemory, append_all};
use itoa::Buffer;

/// Limits the choices of a plain text, which has one digit a choice.
pub(crate) const MOST_PLAIN: usize = 64;

/// Returns the digit of a choice.
pub(crate) fn digit(choice: bool) -> u8
    ensures { result ≡ digit_of choice }
{
    if choice { b'1' } else { b'0' }
}

/// Appends a digit for each choice. The answer is `NoMemory` if `out` can't grow, and `out` is then
/// unchanged.
fn push_digits(out: &mut Vec<u8>, choices: &[bool]) -> Result<(), NoMemory>
    ensures ok { OnOk result (out.new.items ≡ out.old.items ++ map digit_of choices.now) }
    ensures err { OnErr result (out.new.items ≡ out.old.items) }
    ensures full { OnErr result (vec_capacity out.old < vec_len out.old + length choices.now) }
    ensures capacity { vec_capacity out.old ≤ vec_capacity out.new }
{
    let Ok(()) = out.reserve(choices.len()) else {
        return Err(NoMemory);
    };
    for choice in choices {
        out.push_reserved(digit(*choice));
    }
    Ok(())
}

/// Returns the length of the front stretch of choices that are equal to the first. The list must
/// not be empty.
fn stretch(choices: &[bool]) -> usize
    requires { 0 < length choices.now }
    ensures within { result ≤ length choices.now }
    ensures some { 0 < result }
    ensures same { take result choices.now ≡ replicate result (get_or choices.now 0 false) }
    ensures stops { StartsOther (get_or choices.now 0 false) (drop result choices.now) }
{
    let first = choices[0];
    let mut size = 1;
    while size < choices.len() {
        if choices[size] != first {
            return size;
        }
        size += 1;
    }
    size
}

/// Appends a group, and a comma before it if it is a later one. If `out` can't grow, it is
/// unchanged.
pub(crate) fn push_group(
    out: &mut Vec<u8>,
    later: bool,
    choice: bool,
    size: usize,
) -> Result<(), NoMemory>
    ensures ok { let group = group_of (record { choice = choice; size = size }) in
        OnOk result (out.new.items ≡ out.old.items ++ comma_before later ++ group_text group) }
    ensures err { OnErr result (out.new.items ≡ out.old.items) }
    ensures full { let group = group_of (record { choice = choice; size = size }) in OnErr result
        (vec_capacity out.old < vec_len out.old + length (comma_before later ++ group_text group)) }
    ensures capacity { vec_capacity out.old ≤ vec_capacity out.new }
{
    let front = [b',', digit(choice), b'*'];
    let start = if later { 0 } else { 1 };
    let mut digits = Buffer::new();
    let digits = digits.format(size as u64).as_bytes();
    append_all(out, &[&front[start..], digits])
}

/// Appends the groups of a list of choices, which must not be empty. If `out` can't grow, only a
/// prefix of the groups is appended.
fn push_groups(out: &mut Vec<u8>, choices: &[bool]) -> Result<(), NoMemory>
    requires { 0 < length choices.now }
    ensures ok { OnOk result (out.new.items ≡ out.old.items ++ grouped_text choices.now) }
    ensures err { OnErr result (take (vec_len out.old) out.new.items ≡ out.old.items) }
    ensures full { OnErr result
        (vec_capacity out.old < vec_len out.old + length (grouped_text choices.now)) }
    ensures capacity { vec_capacity out.old ≤ vec_capacity out.new }
{
    let mut later = false;
    let mut at = 0;
    'groups: loop {
        let rest = &choices[at..];
        let size = stretch(rest);
        push_group(out, later, rest[0], size)?;
        at += size;
        if at == choices.len() {
            return Ok(());
        }
        later = true;
    }
}

/// Appends the text of a list of choices. The answer is `NoMemory` if `out` can't grow, and `out`
/// is then unchanged.
#[tactic(auto, unfolding(crate::specs::ChoiceTexts::choices_text))]
pub fn append_choices(out: &mut Vec<u8>, choices: &[bool]) -> Result<(), NoMemory>
    ensures ok { OnOk result (out.new.items ≡ out.old.items ++ choices_text choices.now) }
    ensures err { OnErr result (out.new.items ≡ out.old.items) }
    ensures full { OnErr result
        (vec_capacity out.old < vec_len out.old + length (choices_text choices.now)) }
    ensures capacity { vec_capacity out.old ≤ vec_capacity out.new }
{
    if choices.is_empty() {
        return append_all(out, &[b"-"]);
    }
    if choices.len() <= MOST_PLAIN {
        return push_digits(out, choices);
    }
    let start = out.len();
    let appended = push_groups(out, choices);
    if appended.is_err() {
        out.truncate(start);
    }
    appended
}
