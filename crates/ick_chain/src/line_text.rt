//! Writes the lines of a listing without a limit.

ghost use Rattle.std.specs.Prelude.{◌≡◌, ◌<◌, ◌++◌, option_map, IfOk, IfSome, IfNone, OnOk};
ghost use Rattle.ick_code.specs.meaning.State.{State as Meant};
ghost use Rattle.ick_outcomes.specs.Programs.{Program};
ghost use Rattle.ick_numbers.specs.Values.{natural};
ghost use Rattle.ick_outcomes.specs.Lines.{output_text};
ghost use Rattle.ick_chain.specs.ExactListings.{AreLineTexts, IsCount, IsListText, IsNeverText};
ghost use Rattle.ick_chain.specs.ExactListings.{line_parts, never_parts};
ghost use Rattle.ick_chain.specs.Lines.{AppendsLine, line_of, lines_of};
ghost use Rattle.ick_chain.specs.Shown.{NeverEnds};

use crate::errors::ChainError;
use crate::line::Line;
use crate::visits::is_some;
use crate::weight_text::part_text;
use ick_bits::{NoMemory, append_quoted};
use ick_explorer::append_choices;
use ick_numbers::Natural;
use ick_outcomes::number_text;
use std::alloc::Global;

/// Returns the text of a number of runs, or a star if they are infinitely many.
fn count_text(alloc: Global, count: &Option<Natural>) -> Result<Vec<u8>, NoMemory>
    ensures { IfOk result (λ text. IsCount (option_map natural count.now) text.items) }
{
    match count {
        Some(number) => number_text(number, alloc),
        None => Ok(Vec::from_slice(alloc, b"*")?),
    }
}

/// Appends a blank and an output in quotes, or nothing if the output is left out.
fn append_output(out: &mut Vec<u8>, output: &[u8], silent: bool) -> Result<(), NoMemory>
    ensures { OnOk result (out.new.items ≡ out.old.items ++ output_text silent output.now) }
{
    if silent {
        return Ok(());
    }
    out.push(b' ')?;
    append_quoted(out, output)?;
    Ok(())
}

/// Appends a line with the texts of its count and of its weight: `COUNT WEIGHT FIRST END OUTPUT`,
/// without OUTPUT if it is left out.
fn append_parts(
    out: &mut Vec<u8>,
    line: &Line,
    count: &[u8],
    weight: &[u8],
    silent: bool,
) -> Result<(), NoMemory>
    ensures { OnOk result (out.new.items ≡ out.old.items
        ++ line_parts silent (line_of line.now) count.now weight.now) }
{
    out.extend_from_slice(count)?;
    out.push(b' ')?;
    out.extend_from_slice(weight)?;
    out.push(b' ')?;
    append_choices(out, &line.shown)?;
    out.push(b' ')?;
    out.extend_from_slice(&line.row.end)?;
    append_output(out, &line.row.output, silent)?;
    out.push(b'\n')?;
    Ok(())
}

/// Appends the text of a line.
fn append_line(
    alloc: Global,
    out: &mut Vec<u8>,
    parts: &Natural,
    line: &Line,
    exact: bool,
    silent: bool,
) -> Result<(), ChainError>
    requires { 0 < natural parts.now }
    ensures { OnOk result (AppendsLine exact silent (natural parts.now) (line_of line.now)
        out.old.items out.new.items) }
{
    let count = count_text(alloc, &line.count)?;
    let weight = part_text(alloc, &line.row.weight, parts, exact)?;
    append_parts(out, line, &count, &weight, silent)?;
    Ok(())
}

/// Returns the texts of lines, one after another.
fn lines_text(
    alloc: Global,
    parts: &Natural,
    lines: &[Line],
    exact: bool,
    silent: bool,
) -> Result<Vec<u8>, ChainError>
    requires { 0 < natural parts.now }
    ensures { IfOk result (λ text. AreLineTexts exact silent (natural parts.now)
        (lines_of lines.now) text.items) }
{
    let mut text = Vec::new(alloc);
    'lines: for line in lines {
        append_line(alloc, &mut text, parts, line, exact, silent)?;
    }
    Ok(text)
}

/// Appends the line of the runs that never end, with the text of their weight.
fn append_never(
    out: &mut Vec<u8>,
    weight: &[u8],
    choices: &[bool],
    silent: bool,
) -> Result<(), NoMemory>
    ensures { OnOk result (out.new.items ≡ out.old.items
        ++ never_parts silent weight.now choices.now) }
{
    out.extend_from_slice(b"* ")?;
    out.extend_from_slice(weight)?;
    out.push(b' ')?;
    append_choices(out, choices)?;
    out.extend_from_slice(b" NEVER")?;
    append_output(out, b"", silent)?;
    out.push(b'\n')?;
    Ok(())
}

/// Returns the line of the runs that never end, with choices that lead to a state from which no run
/// ends. It is empty if there are no such choices.
fn never_text(
    alloc: Global,
    parts: &Natural,
    never: &Natural,
    stuck: &Option<Vec<bool>>,
    exact: bool,
    silent: bool,
) -> Result<Vec<u8>, ChainError>
    requires some { 0 < natural parts.now }
    requires ends { IfNone stuck.now (natural never.now ≡ 0) }
    ensures { IfOk result (λ text. (p : Program) (s : Meant) → silent ≡ p.silent →
        IfSome stuck.now (λ choices. NeverEnds p s choices.items) →
        IsNeverText p s exact (natural parts.now) (natural never.now) text.items) }
{
    let mut text = Vec::new(alloc);
    match stuck {
        None => Ok(text),
        Some(choices) => {
            if !is_some(never) {
                return Err(ChainError::NotSolved);
            }
            let weight = part_text(alloc, never, parts, exact)?;
            append_never(&mut text, &weight, choices, silent)?;
            Ok(text)
        }
    }
}

/// Returns the lines of outcomes, the line of the runs that never end, and `DONE`. Outputs are left
/// out if `silent` is true.
pub(crate) fn list_text(
    alloc: Global,
    parts: &Natural,
    lines: &[Line],
    never: &Natural,
    stuck: &Option<Vec<bool>>,
    exact: bool,
    silent: bool,
) -> Result<Vec<u8>, ChainError>
    requires some { 0 < natural parts.now }
    requires ends { IfNone stuck.now (natural never.now ≡ 0) }
    ensures { IfOk result (λ text. (p : Program) (s : Meant) → silent ≡ p.silent →
        IfSome stuck.now (λ choices. NeverEnds p s choices.items) →
        IsListText p s exact (natural parts.now) (natural never.now) (lines_of lines.now)
        text.items) }
{
    let mut text = lines_text(alloc, parts, lines, exact, silent)?;
    let last = never_text(alloc, parts, never, stuck, exact, silent)?;
    text.extend_from_slice(&last)?;
    text.extend_from_slice(b"DONE\n")?;
    Ok(text)
}
