//! Reads texts of groups.

ghost use Rattle.std.specs.Prelude.{◌≡◌, ◌⊎◌, ◌<◌, ◌≤◌, ◌+◌, ◌++◌};
ghost use Rattle.std.specs.Prelude.{◌^◌, ℕ, replicate, List, Bool, true, false, [], None};
ghost use Rattle.std.specs.Prelude.{Some, Err, IfOk, IfErr, IfSome, OnOk, length, take, drop};
ghost use Rattle.std.specs.Str.Parse.{AllDigits, digits_value};
ghost use Rattle.ick_explorer.specs.ChoiceTexts.{Group, Differs, IsLength, IsGrouped, digit_of};
ghost use Rattle.ick_explorer.specs.ChoiceTexts.{group_text};
ghost use Rattle.ick_explorer.specs.Readings.{HasNoDigit, IsCapped, IsFront};

use crate::errors::RunsError;
use std::alloc::Global;

/// Caps the numbers that are read. The cap is above every limit on steps.
const LENGTH_CAP: u64 = 4_294_967_296;

/// Describes the group at the front of a text. `choice` is its choice, `size` is the length of its
/// stretch up to the cap, and `count` is the number of digits of that length.
#[derive(Clone, Copy)]
pub(crate) struct Front {
    pub(crate) choice: bool,
    pub(crate) size: u64,
    pub(crate) count: usize,
}

/// Describes the digits at the front of a text: their count, and their value up to the cap.
#[derive(Clone, Copy)]
struct Digits {
    count: usize,
    value: u64,
}

/// Reads the digits at the front of a text. Returns their count, and their value up to the cap.
fn read_digits(text: &[u8]) -> Digits
    ensures within { result.count ≤ length text.now }
    ensures digits { AllDigits 10 (take result.count text.now) }
    ensures stops { HasNoDigit (drop result.count text.now) }
    ensures value { IsCapped result.value (digits_value 10 (take result.count text.now)) }
{
    let mut value = 0;
    let mut count = 0;
    while count < text.len() && text[count].is_ascii_digit() {
        value = (value * 10 + u64::from(text[count] - b'0')).min(LENGTH_CAP);
        count += 1;
    }
    Digits { count, value }
}

/// Reads the group at the front of a text, after the choice `last`. Returns `None` if no such group
/// is there.
fn read_front(text: &[u8], last: Option<bool>) -> Option<Front>
    ensures some { IfSome result (λ f. IsFront last text.now f) }
    ensures none { result ≡ None → (g : Group) (tail : List ℕ) → Differs last g.choice →
        IsLength g.digits → HasNoDigit tail → ¬ (text.now ≡ group_text g ++ tail) }
{
    if text.len() < 3 {
        return None;
    }
    let choice = match (text[0], last) {
        (b'0', None | Some(true)) => false,
        (b'1', None | Some(false)) => true,
        _ => return None,
    };
    if text[1] != b'*' {
        return None;
    }
    if text[2] == b'0' {
        return None;
    }
    let digits = read_digits(&text[2..]);
    if digits.count == 0 {
        return None;
    }
    Some(Front {
        choice,
        size: digits.value,
        count: digits.count,
    })
}

/// Returns the number of choices in a text of groups, up to the cap. Returns `None` for any other
/// text. This call takes no memory.
pub(crate) fn measure(text: &[u8]) -> Option<u64>
    ensures some { IfSome result (λ n.
        (c : List Bool) × IsGrouped None text.now c × IsCapped n (length c)) }
    ensures none { result ≡ None → (c : List Bool) → ¬ IsGrouped None text.now c }
{
    let mut last = None;
    let mut at = 0;
    let mut total = 0;
    'groups: loop {
        let Some(front) = read_front(&text[at..], last) else {
            return None;
        };
        total = (total + front.size).min(LENGTH_CAP);
        at += front.count + 2;
        if at == text.len() {
            return Some(total);
        }
        if text[at] != b',' {
            return None;
        }
        last = Some(front.choice);
        at += 1;
    }
}

/// Returns the choices of a text of groups, which must have fewer choices than the cap. The answer
/// is `NoMemory` if the list can't grow.
fn fill(alloc: Global, text: &[u8]) -> Result<Vec<bool>, RunsError>
    requires valid { (c : List Bool) × IsGrouped None text.now c × (length c < 2 ^ 32) }
    ensures ok { IfOk result (λ choices. IsGrouped None text.now choices.items) }
    ensures err { IfErr result (λ e. e ≡ RunsError.NoMemory) }
{
    let mut choices = Vec::new(alloc);
    let mut last = None;
    let mut at = 0;
    'groups: loop {
        let Some(front) = read_front(&text[at..], last) else {
            unreachable!();
        };
        let size = choices.len() + front.size as usize;
        let Ok(()) = choices.resize(size, front.choice) else {
            return Err(RunsError::NoMemory);
        };
        at += front.count + 2;
        if at == text.len() {
            return Ok(choices);
        }
        last = Some(front.choice);
        at += 1;
    }
}

/// Reads a text of groups of at most `limit` choices. The answer is `BadCursor` for any other text,
/// else `NoSuchRun` if the text has more choices than `limit`. The answer is `NoMemory` if the list
/// can't grow.
pub(crate) fn read_groups(alloc: Global, text: &[u8], limit: u32) -> Result<Vec<bool>, RunsError>
    ensures ok { IfOk result (λ choices.
        IsGrouped None text.now choices.items × (length choices.items ≤ limit)) }
    ensures bad_cursor { result ≡ Err RunsError.BadCursor →
        (c : List Bool) → ¬ IsGrouped None text.now c }
    ensures no_such_run { result ≡ Err RunsError.NoSuchRun →
        (c : List Bool) × IsGrouped None text.now c × (limit < length c) }
    ensures no_memory { result ≡ Err RunsError.NoMemory →
        (c : List Bool) × IsGrouped None text.now c × (length c ≤ limit) }
    ensures errors { IfErr result (λ e. (e ≡ RunsError.NoMemory)
        ⊎ ((e ≡ RunsError.NoSuchRun) ⊎ (e ≡ RunsError.BadCursor))) }
{
    let Some(size) = measure(text) else {
        return Err(RunsError::BadCursor);
    };
    if size > u64::from(limit) {
        return Err(RunsError::NoSuchRun);
    }
    fill(alloc, text)
}
