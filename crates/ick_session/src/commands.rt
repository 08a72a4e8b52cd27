//! The commands of a session.

ghost use Rattle.std.specs.Prelude.{◌≡◌, ◌≤◌, ◌-◌, None, Some, if◌then◌else◌, length, true};
ghost use Rattle.std.specs.Prelude.{find, option_map, slice_range};
ghost use Rattle.std.specs.List.{prefix_len};
ghost use Rattle.ick_bits.specs.White.{is_white_byte};
ghost use Rattle.ick_session.specs.Commands.{alone, are_names, behind_word, choice_in, count_in};
ghost use Rattle.ick_session.specs.Commands.{first_word, is_blank, is_labelled, is_solid, kind_in};
ghost use Rattle.ick_session.specs.Commands.{most_in, moves};
ghost use Rattle.ick_session.specs.Commands.{name_alone};
ghost use Rattle.ick_session.specs.Commands.{name_in, number_alone, number_in, order_by, order_in};
ghost use Rattle.ick_session.specs.Commands.{order_of, verb_in, verb_word, verbs};
ghost use Rattle.ick_session.specs.Lines.{begins_with, words_text};

use crate::evaluated::NO_EXPRESSION;
use ick_bits::is_white;
use ick_syntax::{Name, NameKind};

/// A command of a session. The names of `Print` are the words of a text, and `Eval` has the text of
/// an expression.
#[derive(Clone, Copy)]
pub enum Command<'l> {
    Step(u32),
    Back(u32),
    Next,
    Out,
    Until(u32),
    Run(u32),
    Break(u32),
    BreakLabel(u32),
    Delete(u32),
    DeleteAll,
    Choose(bool),
    Print(&'l [u8]),
    Eval(&'l [u8]),
    Stack,
    State,
    List,
    Watch(Name),
    Why(Name),
    Output,
    Cursor,
    Help,
    Quit,
}

/// The first word of a command.
#[derive(Clone, Copy)]
pub enum Verb {
    Step,
    Back,
    Next,
    Out,
    Until,
    Run,
    Break,
    Delete,
    Choose,
    Print,
    Eval,
    Stack,
    State,
    List,
    Watch,
    Why,
    Output,
    Cursor,
    Help,
    Quit,
}

/// All verbs. If a word is the front of two verbs, it means the earlier one.
static VERBS: [Verb; 20] = [
    Verb::Step,
    Verb::Back,
    Verb::Next,
    Verb::Out,
    Verb::Until,
    Verb::Run,
    Verb::Break,
    Verb::Delete,
    Verb::Choose,
    Verb::Print,
    Verb::Eval,
    Verb::Stack,
    Verb::State,
    Verb::List,
    Verb::Watch,
    Verb::Why,
    Verb::Output,
    Verb::Cursor,
    Verb::Help,
    Verb::Quit,
];

impl Command<'_> {
    /// Returns whether the command makes steps or takes them back.
    pub fn moves(self) -> bool
        ensures { result ≡ moves (order_of self.entry) }
    {
        matches!(
            self,
            Command::Step(_)
                | Command::Back(_)
                | Command::Next
                | Command::Out
                | Command::Until(_)
                | Command::Run(_)
                | Command::Choose(_)
                | Command::Watch(_)
                | Command::Why(_)
        )
    }
}

impl Verb {
    /// Returns the line that says what follows the word.
    pub fn takes(self) -> &'static [u8]
        ensures { result.now ≡ words_text self }
    {
        match self {
            Verb::Step => b"step takes a number, or nothing\n",
            Verb::Back => b"back takes a number, or nothing\n",
            Verb::Next => b"next takes nothing\n",
            Verb::Out => b"out takes nothing\n",
            Verb::Until => b"until takes the number of a statement\n",
            Verb::Run => b"run takes a number, or nothing\n",
            Verb::Break => b"break takes the number of a statement, or a label such as (20)\n",
            Verb::Delete => b"delete takes the number of a statement, or nothing\n",
            Verb::Choose => b"choose takes 0 or 1\n",
            Verb::Print => b"print takes variables and arrays, such as .1 or ,2\n",
            Verb::Eval => NO_EXPRESSION,
            Verb::Stack => b"stack takes nothing\n",
            Verb::State => b"state takes nothing\n",
            Verb::List => b"list takes nothing\n",
            Verb::Watch => b"watch takes one variable or array, such as .1 or ,2\n",
            Verb::Why => b"why takes one variable or array, such as .1 or ,2\n",
            Verb::Output => b"output takes nothing\n",
            Verb::Cursor => b"cursor takes nothing\n",
            Verb::Help => b"help takes nothing\n",
            Verb::Quit => b"quit takes nothing\n",
        }
    }

    /// Returns the word.
    pub fn word(self) -> &'static [u8]
        ensures { result.now ≡ verb_word self }
    {
        match self {
            Verb::Step => b"step",
            Verb::Back => b"back",
            Verb::Next => b"next",
            Verb::Out => b"out",
            Verb::Until => b"until",
            Verb::Run => b"run",
            Verb::Break => b"break",
            Verb::Delete => b"delete",
            Verb::Choose => b"choose",
            Verb::Print => b"print",
            Verb::Eval => b"eval",
            Verb::Stack => b"stack",
            Verb::State => b"state",
            Verb::List => b"list",
            Verb::Watch => b"watch",
            Verb::Why => b"why",
            Verb::Output => b"output",
            Verb::Cursor => b"cursor",
            Verb::Help => b"help",
            Verb::Quit => b"quit",
        }
    }
}

/// Returns the first verb whose first letter is this one.
pub fn nearest_verb(letter: u8) -> Option<Verb>
    ensures { result ≡ find (begins_with letter) verbs }
{
    VERBS.iter().copied().find(|verb| verb.word()[0] == letter)
}

/// Returns the first verb that begins with a word.
pub fn verb_of(word: &[u8]) -> Option<Verb>
    ensures { result ≡ verb_in word.now }
{
    VERBS
        .iter()
        .copied()
        .find(|verb| verb.word().starts_with(word))
}

/// Returns how many white bytes a text begins with.
fn white_length(text: &[u8]) -> usize
    ensures within { result ≤ length text.now }
    ensures is { result ≡ prefix_len is_white_byte text.now }
{
    let mut size = 0;
    while size < text.len() {
        if !is_white(text[size]) {
            return size;
        }
        size += 1;
    }
    size
}

/// Returns how many bytes a text begins with that aren't white.
fn solid_length(text: &[u8]) -> usize
    ensures within { result ≤ length text.now }
    ensures is { result ≡ prefix_len is_solid text.now }
{
    let mut size = 0;
    while size < text.len() {
        if is_white(text[size]) {
            return size;
        }
        size += 1;
    }
    size
}

/// Returns the first word of a text, and the rest behind it. The word is empty if the text has no
/// word.
pub fn next_word(text: &[u8]) -> (&[u8], &[u8])
    ensures word { result.0.now ≡ first_word text.now }
    ensures rest { result.1.now ≡ behind_word text.now }
{
    let begun = &text[white_length(text)..];
    let size = solid_length(begun);
    (&begun[..size], &begun[size..])
}

/// Returns whether a text has no word.
fn has_no_word(text: &[u8]) -> bool
    ensures { result ≡ is_blank text.now }
{
    text.iter().all(|b| is_white(*b))
}

/// Returns the number that a word writes in decimal digits, if it has 32 bits.
fn number_in(word: &[u8]) -> Option<u32>
    ensures { result ≡ number_in word.now }
{
    if word.is_empty() {
        return None;
    }
    let mut number: u32 = 0;
    for byte in word {
        if !byte.is_ascii_digit() {
            return None;
        }
        let next = u64::from(number) * 10 + u64::from(*byte - b'0');
        if next > u64::from(u32::MAX) {
            return None;
        }
        number = next as u32;
    }
    Some(number)
}

/// Returns the kind that a sigil stands for.
fn kind_of(sigil: u8) -> Option<NameKind>
    ensures { result ≡ kind_in sigil }
{
    match sigil {
        b'.' => Some(NameKind::Onespot),
        b':' => Some(NameKind::Twospot),
        b',' => Some(NameKind::Tail),
        b';' => Some(NameKind::Hybrid),
        _ => None,
    }
}

/// Returns the name that a word writes.
pub fn name_of(word: &[u8]) -> Option<Name>
    ensures { result ≡ name_in word.now }
{
    if word.is_empty() {
        return None;
    }
    let kind = kind_of(word[0])?;
    let number = number_in(&word[1..])?;
    if number == 0 || number > 65_535 {
        return None;
    }
    Some(Name {
        kind,
        number: number as u16,
    })
}

/// Returns the only word of a text, which is empty if the text has none.
fn only_word(text: &[u8]) -> Option<&[u8]>
    ensures { option_map (λ word. word.now) result ≡ alone text.now }
{
    let (word, rest) = next_word(text);
    if has_no_word(rest) { Some(word) } else { None }
}

/// Returns the number that is the only word of a text.
fn only_number(text: &[u8]) -> Option<u32>
    ensures { result ≡ number_alone text.now }
{
    let word = only_word(text)?;
    number_in(word)
}

/// Returns the name that is the only word of a text.
fn only_name(text: &[u8]) -> Option<Name>
    ensures { result ≡ name_alone text.now }
{
    let word = only_word(text)?;
    name_of(word)
}

/// Returns the number that is the only word of a text, or 1 if it has no word.
fn count_of(text: &[u8]) -> Option<u32>
    ensures { result ≡ count_in text.now }
{
    if has_no_word(text) {
        return Some(1);
    }
    only_number(text)
}

/// Returns the number that is the only word of a text, or the greatest number if it has no word.
fn most_of(text: &[u8]) -> Option<u32>
    ensures { result ≡ most_in text.now }
{
    if has_no_word(text) {
        return Some(u32::MAX);
    }
    only_number(text)
}

/// Returns the choice that is the only word of a text.
fn choice_of(text: &[u8]) -> Option<bool>
    ensures { result ≡ choice_in text.now }
{
    let number = only_number(text)?;
    match number {
        0 => Some(false),
        1 => Some(true),
        _ => None,
    }
}

/// Returns whether a text has a word, and all its words are names.
fn has_names(text: &[u8]) -> bool
    ensures { result ≡ are_names text.now }
{
    if next_word(text).0.is_empty() {
        return false;
    }
    let mut rest = text;
    for _at in 0..text.len() {
        let (word, behind) = next_word(rest);
        if word.is_empty() {
            return true;
        }
        if name_of(word).is_none() {
            return false;
        }
        rest = behind;
    }
    true
}

/// Returns the command of a verb, by the rest of its line.
fn command_of(verb: Verb, rest: &[u8]) -> Option<Command<'_>>
    ensures { option_map order_of result ≡ order_by verb rest.now }
{
    match verb {
        Verb::Step => count_of(rest).map(|n| Command::Step(n)),
        Verb::Back => count_of(rest).map(|n| Command::Back(n)),
        Verb::Until => only_number(rest).map(|n| Command::Until(n)),
        Verb::Choose => choice_of(rest).map(|done| Command::Choose(done)),
        Verb::Watch => only_name(rest).map(|name| Command::Watch(name)),
        Verb::Why => only_name(rest).map(|name| Command::Why(name)),
        Verb::Print => names_command(rest),
        Verb::Eval => eval_command(rest),
        Verb::Run => most_of(rest).map(|n| Command::Run(n)),
        Verb::Break => break_command(rest),
        Verb::Delete => delete_command(rest),
        Verb::Next => without_words(Command::Next, rest),
        Verb::Out => without_words(Command::Out, rest),
        Verb::Stack => without_words(Command::Stack, rest),
        Verb::State => without_words(Command::State, rest),
        Verb::List => without_words(Command::List, rest),
        Verb::Output => without_words(Command::Output, rest),
        Verb::Cursor => without_words(Command::Cursor, rest),
        Verb::Help => without_words(Command::Help, rest),
        Verb::Quit => without_words(Command::Quit, rest),
    }
}

/// Returns the command that prints the names that are the words of a text.
fn names_command(text: &[u8]) -> Option<Command<'_>>
    ensures { option_map order_of result ≡ order_by Verb.Print text.now }
{
    if has_names(text) {
        return Some(Command::Print(text));
    }
    None
}

/// Returns the command that shows the value of an expression, unless there is no word.
fn eval_command(text: &[u8]) -> Option<Command<'_>>
    ensures { option_map order_of result ≡ order_by Verb.Eval text.now }
{
    if has_no_word(text) {
        return None;
    }
    Some(Command::Eval(text))
}

/// Returns whether a word is between parentheses.
fn is_labelled(word: &[u8]) -> bool
    ensures { result ≡ is_labelled word.now }
{
    !word.is_empty() && word[0] == b'(' && word[word.len() - 1] == b')'
}

/// Returns the command that sets a breakpoint at the statement with a number, or with a label.
fn break_command(text: &[u8]) -> Option<Command<'_>>
    ensures { option_map order_of result ≡ order_by Verb.Break text.now }
{
    let word = only_word(text)?;
    if is_labelled(word) {
        let label = number_in(inside(word))?;
        return Some(Command::BreakLabel(label));
    }
    number_in(word).map(|n| Command::Break(n))
}

/// Returns a word that is between parentheses without them.
fn inside(word: &[u8]) -> &[u8]
    requires { is_labelled word.now ≡ true }
    ensures { result.now ≡ slice_range word.now 1 (length word.now - 1) }
{
    &word[1..word.len() - 1]
}

/// Returns the command that deletes one breakpoint, or all.
fn delete_command(text: &[u8]) -> Option<Command<'_>>
    ensures { option_map order_of result ≡ order_by Verb.Delete text.now }
{
    if has_no_word(text) {
        return Some(Command::DeleteAll);
    }
    only_number(text).map(|n| Command::Delete(n))
}

/// Returns a command that takes no words, unless there are words.
fn without_words<'l>(command: Command<'l>, text: &[u8]) -> Option<Command<'l>>
    ensures { result ≡ (if is_blank text.now then Some command.entry else None) }
{
    if has_no_word(text) {
        Some(command)
    } else {
        None
    }
}

/// Reads the command of a line: a verb, cut short or whole, and the words that the verb takes. A
/// verb that is cut short means the first verb in the order of `help` that begins with it. Returns
/// `None` if the line is that of no command.
pub fn read_command(line: &[u8]) -> Option<Command<'_>>
    ensures { option_map order_of result ≡ order_in line.now }
{
    let (word, rest) = next_word(line);
    if word.is_empty() {
        return None;
    }
    let verb = verb_of(word)?;
    command_of(verb, rest)
}
