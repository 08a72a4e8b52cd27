//! Builds the text of a summary.

ghost use Rattle.std.specs.Prelude.{◌≡◌, ◌++◌, ℕ, Bool, List, IfOk, IfSome, OnOk};
ghost use Rattle.ick_bits.specs.Quoted.{quoted as quoted_text};
ghost use Rattle.ick_outcomes.specs.Buffered.{AppendsLine, AreTexts};
ghost use Rattle.ick_outcomes.specs.Lines.{IsSummaryText, IsTotal, output_text};
ghost use Rattle.ick_numbers.specs.Values.{natural};
ghost use Rattle.ick_outcomes.specs.Seen.{rows_of};
ghost use Rattle.ick_outcomes.specs.Summaries.{count_of};

use crate::cut::{renew_weight, write_weight};
use crate::outcome::Outcome;
use crate::quoting::renew_quoted;
use crate::text::{Buffers, number_text};
use ick_bits::{NoMemory, append_decimal, append_quoted};
use ick_explorer::append_choices;
use ick_numbers::Natural;
use std::alloc::Global;

/// The texts of the count, of the weight and of the output of an outcome.
#[derive(Drop)]
struct Texts {
    count: Buffers,
    weight: Buffers,
    output: Vec<u8>,
}

/// Writes the texts of an outcome. The weight is exact, or cut.
fn write_texts(texts: &mut Texts, outcome: &Outcome, exact: bool) -> Result<(), NoMemory>
    ensures { OnOk result (AreTexts exact outcome.now texts.new.count.text.items
        texts.new.weight.text.items texts.new.output.items) }
{
    texts.count.write_number(&outcome.count)?;
    texts.output.clear();
    append_quoted(&mut texts.output, &outcome.output)?;
    write_weight(&mut texts.weight, &outcome.weight, exact)
}

/// Writes the texts of an outcome in place of those of the last one. A text that is the same stays.
fn renew_texts(
    texts: &mut Texts,
    last: &Outcome,
    outcome: &Outcome,
    exact: bool,
) -> Result<(), NoMemory>
    requires { AreTexts exact last.now texts.old.count.text.items texts.old.weight.text.items
        texts.old.output.items }
    ensures { OnOk result (AreTexts exact outcome.now texts.new.count.text.items
        texts.new.weight.text.items texts.new.output.items) }
{
    texts.count.renew_number(&last.count, &outcome.count)?;
    renew_quoted(&mut texts.output, &last.output, &outcome.output)?;
    renew_weight(&mut texts.weight, &last.weight, &outcome.weight, exact)
}

/// Writes the texts of an outcome. The last outcome, if there was one, has the texts before.
fn put_texts(
    texts: &mut Texts,
    last: Option<&Outcome>,
    outcome: &Outcome,
    exact: bool,
) -> Result<(), NoMemory>
    requires { IfSome last (λ o. AreTexts exact o.now texts.old.count.text.items
        texts.old.weight.text.items texts.old.output.items) }
    ensures { OnOk result (AreTexts exact outcome.now texts.new.count.text.items
        texts.new.weight.text.items texts.new.output.items) }
{
    match last {
        Some(last) => renew_texts(texts, last, outcome, exact),
        None => write_texts(texts, outcome, exact),
    }
}

/// Appends a blank and an output that is quoted already, or nothing if the output is left out.
fn append_output(out: &mut Vec<u8>, quoted: &[u8], silent: bool) -> Result<(), NoMemory>
    ensures { OnOk result ((output : List ℕ) → quoted.now ≡ quoted_text output →
        out.new.items ≡ out.old.items ++ output_text silent output) }
{
    if silent {
        return Ok(());
    }
    out.push(b' ')?;
    out.extend_from_slice(quoted)?;
    Ok(())
}

/// Appends the line of an outcome: `COUNT WEIGHT FIRST END OUTPUT`, without OUTPUT if the program
/// is silent. The texts must be those of the outcome.
fn append_line(
    out: &mut Vec<u8>,
    outcome: &Outcome,
    texts: &Texts,
    silent: bool,
) -> Result<(), NoMemory>
    ensures { OnOk result ((exact : Bool) →
        AreTexts exact outcome.now texts.now.count.text.items texts.now.weight.text.items
        texts.now.output.items →
        AppendsLine exact silent outcome.now out.old.items out.new.items) }
{
    out.extend_from_slice(&texts.count.text)?;
    out.push(b' ')?;
    out.extend_from_slice(&texts.weight.text)?;
    out.push(b' ')?;
    append_choices(out, &outcome.first)?;
    out.push(b' ')?;
    out.extend_from_slice(&outcome.end)?;
    append_output(out, &texts.output, silent)?;
    out.push(b'\n')?;
    Ok(())
}

/// Returns the text of a summary: a line `COUNT WEIGHT FIRST END OUTPUT` for each outcome, and then
/// `DONE`. Choices, end and output are as a listing shows them. OUTPUT is left out if the program
/// is silent. Weights are exact, or cut. The only refusal is out of memory.
#[tactic(auto, using(crate::proofs::LineLaws::all_lines))]
pub fn summary_text(
    outcomes: &[Outcome],
    exact: bool,
    silent: bool,
    alloc: Global,
) -> Result<Vec<u8>, NoMemory>
    ensures { IfOk result (λ text. IsSummaryText exact silent outcomes.now text.items) }
{
    let mut text = Vec::new(alloc);
    let mut texts = Texts {
        count: Buffers::new(alloc),
        weight: Buffers::new(alloc),
        output: Vec::new(alloc),
    };
    let mut last = None;
    'outcomes: for outcome in outcomes {
        put_texts(&mut texts, last, outcome, exact)?;
        append_line(&mut text, outcome, &texts, silent)?;
        last = Some(outcome);
    }
    text.extend_from_slice(b"DONE\n")?;
    Ok(text)
}

/// Returns the sum of the counts of outcomes.
#[tactic(auto, using(crate::proofs::LineLaws::total_more, crate::proofs::LineLaws::total_end))]
fn total(outcomes: &[Outcome], alloc: Global) -> Result<Natural, NoMemory>
    ensures { IfOk result (λ sum. natural sum ≡ count_of (rows_of outcomes.now)) }
{
    let mut sum = Natural::zero(alloc);
    'outcomes: for outcome in outcomes {
        sum = sum.plus(&outcome.count)?;
    }
    Ok(sum)
}

/// Returns the line `n OUTCOMES, m RUNS`. The only refusal is out of memory.
pub fn total_text(outcomes: &[Outcome], alloc: Global) -> Result<Vec<u8>, NoMemory>
    ensures { IfOk result (λ text. IsTotal outcomes.now text.items) }
{
    let runs = number_text(&total(outcomes, alloc)?, alloc)?;
    let mut text = Vec::new(alloc);
    append_decimal(&mut text, outcomes.len() as u64)?;
    text.extend_from_slice(b" OUTCOMES, ")?;
    text.extend_from_slice(&runs)?;
    text.extend_from_slice(b" RUNS\n")?;
    Ok(text)
}
