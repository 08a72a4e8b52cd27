//! The lines of the places of a statement's parts.

ghost use Rattle.std.specs.Prelude.{◌≡◌, ◌+◌, ◌<◌, ◌^◌, true};
ghost use Rattle.ick_inspect.specs.Text.{Adds};
ghost use Rattle.ick_stages.specs.Parts.{bytes_text, count_of, head_line, head_line_of, head_text};
ghost use Rattle.ick_stages.specs.Parts.{head_text_of, kind_text, mark_line, part_line, part_text};
ghost use Rattle.ick_stages.specs.Parts.{part_word, parts_from, parts_text, stop_line};
ghost use Rattle.ick_stages.specs.Parts.{stop_line_of, stopped_byte as stopped};
ghost use Rattle.ick_stages.specs.Steps.{asked_text};

use crate::placed::Parts;
use ick_inspect::Text;
use ick_places::{Head, Mark, Part, Span};
use ick_source::Stop;

/// Appends bytes of a statement that begins at byte `start`: `11-16`, from the first one up to
/// before the last one, counted from the statement's first byte.
#[tactic(auto, unfolding(crate::specs::Parts::bytes_text))]
pub fn append_bytes(text: &mut Text, start: usize, from: usize, to: usize)
    ensures { Adds text.old text.new (bytes_text start from to) }
{
    text.push_decimal(from.saturating_sub(start) as u64);
    text.push(b"-");
    text.push_decimal(to.saturating_sub(start) as u64);
}

/// Appends the line of a part of a head.
#[tactic(auto, unfolding(crate::specs::Parts::head_line))]
fn append_head_part(text: &mut Text, start: usize, span: Span, word: &[u8])
    ensures { Adds text.old text.new (head_line start span word.now) }
{
    text.push(b"  head ");
    append_bytes(text, start, span.from, span.to);
    text.push(word);
}

/// Appends the line of a part of a head, if it is there.
fn append_head_part_if(text: &mut Text, start: usize, span: Option<Span>, word: &[u8])
    ensures { Adds text.old text.new (head_line_of start span word.now) }
{
    match span {
        None => {}
        Some(span) => append_head_part(text, start, span, word),
    }
}

/// Appends a line for each part of a head, and for the body behind it, which goes up to byte `to`
/// of the source.
#[tactic(auto, unfolding(crate::specs::Parts::head_text))]
fn append_head(text: &mut Text, start: usize, head: &Head, to: usize)
    ensures { Adds text.old text.new (head_text start head.now to) }
{
    let body = Span {
        from: head.begin,
        to: head.begin.max(to),
    };
    append_head_part_if(text, start, head.label, b" label\n");
    append_head_part(text, start, head.identifier, b" identifier\n");
    append_head_part_if(text, start, head.negation, b" not\n");
    append_head_part_if(text, start, head.chance, b" chance\n");
    append_head_part(text, start, body, b" body\n");
}

/// Appends the lines of a head, if there is one.
fn append_head_of(text: &mut Text, start: usize, head: &Option<Head>, to: usize)
    ensures { Adds text.old text.new (head_text_of start head.now to) }
{
    match head {
        None => {}
        Some(head) => append_head(text, start, head, to),
    }
}

/// Returns the word of a part.
fn word_of(part: Part) -> &'static [u8]
    ensures { result.now ≡ part_word part }
{
    match part {
        Part::Variable => b"variable",
        Part::Mesh => b"mesh",
        Part::Element => b"element",
        Part::Unary => b"unary",
        Part::Binary => b"binary",
        Part::Listed => b"listed",
        Part::Gerund => b"gerund",
        Part::Action => b"action",
        Part::Name => b"name",
        Part::Label => b"label",
        Part::Operator => b"operator",
        Part::Group => b"group",
    }
}

/// Appends the word of a part behind a space.
fn append_word(text: &mut Text, part: Part)
    ensures { Adds text.old text.new (kind_text part) }
{
    text.push(b" ");
    text.push(word_of(part));
}

/// Appends the word of a part behind a space, if it is asked for.
fn append_word_if(text: &mut Text, part: Part, asked: bool)
    ensures { Adds text.old text.new (asked_text asked (kind_text part)) }
{
    if asked {
        append_word(text, part);
    }
}

/// Appends the line of operation `number`, which is made of this part.
#[tactic(auto, unfolding(crate::specs::Parts::part_line))]
fn append_part(text: &mut Text, number: u64, start: usize, mark: Mark, all: bool)
    ensures { Adds text.old text.new (part_line number start mark all) }
{
    text.push(b"  part ");
    text.push_decimal(number);
    text.push(b" ");
    append_bytes(text, start, mark.from, mark.to);
    append_word_if(text, mark.part, all);
    text.push(b"\n");
}

/// Appends the line of a part of which no operation is made.
#[tactic(auto, unfolding(crate::specs::Parts::mark_line))]
fn append_other(text: &mut Text, start: usize, mark: Mark)
    ensures { Adds text.old text.new (mark_line start mark) }
{
    text.push(b"  mark ");
    append_bytes(text, start, mark.from, mark.to);
    append_word(text, mark.part);
    text.push(b"\n");
}

/// Appends the line of a part of which no operation is made, if it is asked for.
fn append_other_if(text: &mut Text, start: usize, mark: Mark, asked: bool)
    ensures { Adds text.old text.new (asked_text asked (mark_line start mark)) }
{
    if asked {
        append_other(text, start, mark);
    }
}

/// Appends the line of a part behind so many operations, and returns their count behind it.
fn append_mark(text: &mut Text, number: u64, start: usize, mark: Mark, all: bool) -> u64
    requires { number < 2 ^ 63 }
    ensures added { Adds text.old text.new (part_text number start mark all) }
    ensures count { result ≡ number + count_of mark }
{
    if mark.part.is_operation() {
        append_part(text, number + 1, start, mark, all);
        return number + 1;
    }
    append_other_if(text, start, mark, all);
    number
}

/// Appends a line for each part of a body that an operation is made of, or for each part.
fn append_marks(text: &mut Text, start: usize, marks: &[Mark], all: bool)
    ensures { Adds text.old text.new (parts_from 0 start marks.now all) }
{
    let mut number = 0u64;
    for mark in marks {
        number = append_mark(text, number, start, *mark, all);
    }
}

/// Returns the byte that has the character at which reading stops.
fn stopped_byte(stop: Stop) -> usize
    ensures { result ≡ stopped stop }
{
    if stop.within {
        return stop.at.saturating_sub(1);
    }
    stop.at
}

/// Appends the line of the place at which reading stops: `  stops 11 a number`.
#[tactic(auto, unfolding(crate::specs::Parts::stop_line))]
fn append_stop(text: &mut Text, start: usize, stop: Stop)
    ensures { Adds text.old text.new (stop_line start stop) }
{
    text.push(b"  stops ");
    text.push_decimal(stopped_byte(stop).saturating_sub(start) as u64);
    text.push(b" ");
    text.push(stop.wanted.text());
    text.push(b"\n");
}

/// Appends the line of the place at which reading stops, if it does.
fn append_stop_of(text: &mut Text, start: usize, stop: Option<Stop>)
    ensures { Adds text.old text.new (stop_line_of start stop) }
{
    match stop {
        None => {}
        Some(stop) => append_stop(text, start, stop),
    }
}

/// Appends all lines of places: those of the head, `  head 0-2 identifier`, of the parts of which
/// operations are made, `  part 3 11-16 binary`, of the others, `  mark 13-14 operator`, and of the
/// place at which reading stops.
fn append_all(text: &mut Text, parts: &Parts)
    ensures { Adds text.old text.new (parts_text parts.now true) }
{
    let places = &parts.places;
    append_head_of(text, places.from, &places.head, places.to);
    append_marks(text, places.from, &places.marks, true);
    append_stop_of(text, places.from, parts.stop);
}

/// Appends the lines of the places of a statement's parts: all, or those of which operations are
/// made alone, without their kinds.
pub fn append_parts(text: &mut Text, parts: &Parts, all: bool)
    ensures { Adds text.old text.new (parts_text parts.now all) }
{
    if all {
        append_all(text, parts);
    } else {
        append_marks(text, parts.places.from, &parts.places.marks, false);
    }
}
